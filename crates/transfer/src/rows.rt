// Facts written into a row, slot by slot, from the row before.
ghost use Rattle.std.specs.Prelude.{◌≡◌, ◌+◌, ◌-◌, ◌≤◌, length, get_or};
ghost use Rattle.model.specs.Written.{in_range, in_ranges};
ghost use Rattle.transfer_facts.specs.Effect.{effect_cell};
ghost use Rattle.fact_row.specs.Changed.{cells_in, SameRow};
ghost use Rattle.fact_row.specs.Tracked.{facts_read};
ghost use Rattle.transfer_written.specs.Ranges.{holds_slot, ranges_end};
ghost use Rattle.transfer.specs.Wrote.{Wrote};

use fact_row::{FactRow, TrackedRow, lower_bound};
use sheet_fields::Sheet;
use transfer_facts::{Effect, effect_on_slot};
use transfer_written::Written;

// The tracked slots from start up to but not including start + count become what the effect makes of them.
fn write_range(effect: Effect, row: &TrackedRow, start: u16, count: u64, out: &mut FactRow)
    ensures same { SameRow out.old out.new }
    ensures wrote { let cell = effect_cell effect row.now.slots.now (facts_read row.now) in
        Wrote out.old.slots.now (λ slot. in_range slot start count) cell (cells_in out.old) (cells_in out.new) }
{
    let slots = out.slots;
    for j in lower_bound(slots, usize::from(start))..slots.len() {
        let slot = slots[j];
        if count <= u64::from(slot - start) {
            return;
        }
        let cell = effect_on_slot(effect, row, slot);
        out.kinds[j] = cell.kind;
        out.values[j] = cell.value;
    }
}

// Those of count ranges of the sheet, from the range first on; last is the last of the tracked slots. The loop goes over a copy of the struct: it would
// read a lent one anew for each range, since what it writes might lie there.
#[tactic(auto, using(sheet::proofs::SizeLimits::limited))]
fn write_ranges(
    effect: Effect,
    sheet: &Sheet,
    first: usize,
    count: usize,
    last: u16,
    row: &TrackedRow,
    out: &mut FactRow,
)
    requires fitting_ranges { first + count ≤ sheet.now.sizes.range_count }
    requires last_is { last ≡ get_or out.old.slots.now (length out.old.slots.now - 1) 0 }
    ensures same { SameRow out.old out.new }
    ensures wrote { let cell = effect_cell effect row.now.slots.now (facts_read row.now) in
        Wrote out.old.slots.now (λ slot. in_ranges sheet.now.bytes.now slot first count) cell (cells_in out.old) (cells_in out.new) }
{
    let sheet = *sheet;
    for i in 0..count {
        let start = sheet.range_start(first + i);
        // most ranges that a call writes lie beyond what is tracked
        if start <= last {
            let length = u64::from(sheet.range_length(first + i));
            write_range(effect, row, start, length, out);
        }
    }
}

// All slots that an instruction writes, range after range.
#[tactic(auto, unfolding(transfer_written::specs::Ranges::holds_slot, transfer_written::specs::Ranges::ranges_end))]
pub fn write_slots(
    effect: Effect,
    written: Written,
    sheet: &Sheet,
    row: &TrackedRow,
    out: &mut FactRow,
)
    requires { ranges_end written ≤ sheet.now.sizes.range_count }
    ensures same { SameRow out.old out.new }
    ensures wrote { let cell = effect_cell effect row.now.slots.now (facts_read row.now) in
        Wrote out.old.slots.now (holds_slot written sheet.now.bytes.now) cell (cells_in out.old) (cells_in out.new) }
{
    let Some(&last) = out.slots.last() else {
        return;
    };
    match written {
        Written::Span { start, count } => {
            write_range(effect, row, start, count, out);
        }
        Written::Ranges { first, count } => {
            write_ranges(effect, sheet, first, count, last, row, out);
        }
    }
}

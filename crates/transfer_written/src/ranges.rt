// Ranges of slots, in whole numbers.
ghost use Rattle.std.specs.Prelude.{◌≡◌, ◌*◌, ◌<◌, ◌≤◌, min};
ghost use Rattle.model.specs.Written.{in_range};
ghost use Rattle.transfer_written.specs.Ranges.{holds_slot, slot_range_count, slot_range, ranges_end};

use crate::{RangedSheet, SlotRange, Written};
use sheet_fields::Sheet;

// the write count of an instruction whose visitor erred
const ERRED: u16 = 65535;

// "start up to but not including start + length, in whole numbers": the sum is not made, so that none wraps.
#[tactic(auto, using(crate::proofs::RangeTests::starts_before, crate::proofs::RangeTests::from_start))]
fn in_range(slot: u16, start: u16, count: u64) -> bool
    ensures { result ≡ in_range slot start count }
{
    start <= slot && u64::from(slot - start) < count
}

// As many slots as len elements of elem_slots each have, but of no more than 65,536 elements: len may be any number, and so many, none of
// them empty, reach past every slot from any start.
pub fn span(len: u64, elem_slots: u16) -> u64
    ensures { result ≡ min len 65536 * elem_slots }
{
    len.min(65536) * u64::from(elem_slots)
}

// How many ranges the written slots are.
#[tactic(auto, unfolding(crate::specs::Ranges::slot_range_count))]
pub fn range_count(written: Written) -> usize
    ensures { result ≡ slot_range_count written }
{
    match written {
        Written::Span { start: _, count: _ } => 1,
        Written::Ranges { first: _, count } => count,
    }
}

// The i-th of them.
#[tactic(auto, using(sheet::proofs::SizeLimits::limited), unfolding(crate::specs::Ranges::slot_range, crate::specs::Ranges::slot_range_count, crate::specs::Ranges::ranges_end))]
pub fn range_of(written: Written, sheet: &Sheet, i: usize) -> SlotRange
    requires { (ranges_end written ≤ sheet.now.sizes.range_count) × (i < slot_range_count written) }
    ensures { result ≡ slot_range written sheet.now.bytes.now i }
{
    match written {
        Written::Span { start, count } => SlotRange { start, count },
        Written::Ranges { first, count: _ } => SlotRange {
            start: sheet.range_start(first + i),
            count: u64::from(sheet.range_length(first + i)),
        },
    }
}

// Whether the slot is among them. No range is read after the first that holds it.
#[tactic(auto, using(crate::proofs::RangeLoop::none_yet, crate::proofs::RangeLoop::none_of_all, crate::proofs::RangeLoop::none_more, crate::proofs::RangeLoop::one_holds))]
pub fn holds(sheet: &Sheet, written: Written, slot: u16) -> bool
    requires { ranges_end written ≤ sheet.now.sizes.range_count }
    ensures { result ≡ holds_slot written sheet.now.bytes.now slot }
{
    for i in 0..range_count(written) {
        let range = range_of(written, sheet, i);
        if in_range(slot, range.start, range.count) {
            return true;
        }
    }
    false
}

impl RangedSheet<'_> {
    ghost use Rattle.std.specs.Prelude.{◌≡◌, ◌<◌};
    ghost use Rattle.model.specs.Sheet.{erred};
    ghost use Rattle.transfer_written.specs.Spans.{range_spans};

    // "For all other opcodes the ranges decide .., and an erring visitor writes all."
    #[tactic(auto, using(crate::proofs::Spans::in_code, crate::proofs::Spans::in_firsts), unfolding(model::specs::Sheet::erred, crate::specs::Spans::range_spans))]
    pub fn ranges_written(&self, pc: usize) -> Written
        requires { pc < self.now.sheet.now.sizes.code_count }
        ensures { result ≡ range_spans (erred self.now.sheet.now.bytes.now pc) self.now.sheet.now.bytes.now pc }
    {
        match self.sheet.write_count(pc) {
            ERRED => Written::Span {
                start: 0,
                count: 65536,
            },
            count => Written::Ranges {
                first: usize::from(self.firsts[pc]),
                count: usize::from(count),
            },
        }
    }
}

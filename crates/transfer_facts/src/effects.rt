// What the slots that an instruction writes become.
ghost use Rattle.std.specs.Prelude.{◌≡◌, ◌-◌, ◌<◌};
ghost use Rattle.model.specs.Sheet.{instruction};
ghost use Rattle.model.specs.Written.{in_range};
ghost use Rattle.model.specs.declared.AnalysisKind.TheVariants.{Container};
ghost use Rattle.fact_row.specs.Tracked.{facts_read};
ghost use Rattle.transfer_facts.specs.Effect.{effect_cell, effect_of, offset_found};

use crate::Effect;
use crate::constants::constant_fact_written_to_slot;
use crate::containers::{container_fact_written_to_slot, iter_next_cell};
use crate::index::index_check_fact_written_to_slot;
use fact_row::TrackedRow;
use model::{AnalysisKind, FactCell, Instruction};
use sheet_fields::Sheet;

// "Opcodes (decimal)": numbers, since an instruction may hold any byte.
const COPY_N: u8 = 4;

const MAP_ITER_NEXT: u8 = 95;

// What the container analysis knows of the slots that an instruction writes, if it is no CopyN. "MapIterNext covers 7 slots.", from b on.
fn container_effect(sheet: &Sheet, row: &TrackedRow, pc: usize, inst: Instruction) -> Effect
    requires instruction_read { (pc < sheet.now.sizes.code_count) × (inst ≡ instruction sheet.now.bytes.now pc) }
    requires other_opcode { inst.op ≡ 4 → ⊥ }
    ensures { result ≡ effect_of Container sheet.now.bytes.now pc row.now.slots.now (facts_read row.now) }
{
    match inst.op {
        MAP_ITER_NEXT => Effect::Filled {
            start: inst.b,
            count: 7,
            cell: iter_next_cell(row.fact_for_tracked_source(usize::from(inst.b))),
        },
        _ => Effect::Filled {
            start: inst.a,
            count: 1,
            cell: container_fact_written_to_slot(sheet, row, pc, inst),
        },
    }
}

// What an instruction makes of the slots that it writes, in one of the analyses. CopyN is the same in all three. This and what it calls take no
// InstructionAt: that has first ranges and an accepted sheet, which they do not need and do not ask for.
pub fn effect_of(
    which: AnalysisKind,
    sheet: &Sheet,
    row: &TrackedRow,
    pc: usize,
    inst: Instruction,
) -> Effect
    requires { (pc < sheet.now.sizes.code_count) × (inst ≡ instruction sheet.now.bytes.now pc) }
    ensures { result ≡ effect_of which sheet.now.bytes.now pc row.now.slots.now (facts_read row.now) }
{
    if inst.op == COPY_N {
        return Effect::Copied {
            start: inst.a,
            count: inst.c,
            from: inst.b,
        };
    }
    match which {
        AnalysisKind::Constant => Effect::Filled {
            start: inst.a,
            count: 1,
            cell: constant_fact_written_to_slot(sheet, row, inst),
        },
        AnalysisKind::IndexCheck => Effect::Filled {
            start: inst.a,
            count: 1,
            cell: index_check_fact_written_to_slot(row, inst),
        },
        AnalysisKind::Container => { container_effect(sheet, row, pc, inst) }
    }
}

// How far the slot lies from the start, if it is in the range.
#[tactic(auto, using(transfer_written::proofs::RangeTests::starts_before, transfer_written::proofs::RangeTests::from_start), unfolding(crate::specs::Effect::offset_found))]
fn offset_in(slot: u16, start: u16, count: u16) -> Option<u16>
    ensures { result ≡ offset_found (in_range slot start count) (slot - start) }
{
    slot.checked_sub(start).filter(|offset| *offset < count)
}

// What one slot becomes where the instruction writes it, from the row before. CopyN's source past 65,535 is no slot, and does not wrap to one.
#[tactic(auto, unfolding(model::specs::Fact::kind, model::specs::Fact::value, model::specs::Tables::cell_of, crate::specs::Effect::effect_cell, crate::specs::Effect::offset_found, fact_row::specs::Target::target_cell))]
pub fn effect_on_slot(effect: Effect, row: &TrackedRow, slot: u16) -> FactCell
    ensures { result ≡ effect_cell effect row.now.slots.now (facts_read row.now) slot }
{
    match effect {
        Effect::Filled { start, count, cell } => match offset_in(slot, start, count) {
            Some(_) => cell,
            None => FactCell::UNKNOWN,
        },
        Effect::Copied { start, count, from } => match offset_in(slot, start, count) {
            Some(offset) => { row.fact_for_tracked_source(usize::from(from) + usize::from(offset)) }
            None => FactCell::UNKNOWN,
        },
    }
}

// What the container analysis knows of a slot that an instruction writes.
ghost use Rattle.std.specs.Prelude.{◌≡◌, ℕ, ◌<◌, eqb};
ghost use Rattle.model.specs.Sheet.{instruction};
ghost use Rattle.model.specs.Tables.{fact_in, cell_of};
ghost use Rattle.model.specs.Transfer.{iter_init, iter_next, container_rule, container_fact};
ghost use Rattle.fact_row.specs.Target.{target_cell};
ghost use Rattle.fact_row.specs.Tracked.{facts_read};

use crate::{COPY, MAP_ITER_INIT};
use fact_row::{TrackedRow, instruction_fact};
use model::{FactCell, Instruction};
use sheet_fields::Sheet;

// MapIterInit's fact from b's: a map or an iterator gives the iterator, Conflict stays, a queue gives Unknown.
#[tactic(auto, unfolding(model::specs::Fact::kind, model::specs::Fact::value, model::specs::Tables::cell_of, model::specs::Tables::fact_in, model::specs::Tables::fact_of, model::specs::Transfer::iter_init, model::specs::Transfer::iter_next))]
fn iter_init_cell(cell: FactCell) -> FactCell
    ensures { result ≡ cell_of (iter_init (fact_in cell)) }
{
    match cell.kind {
        2 => FactCell {
            kind: 3,
            value: cell.value,
        },
        _ => iter_next_cell(cell),
    }
}

// MapIterNext's fact from b's: an iterator and Conflict stay, a map and a queue give Unknown.
#[tactic(auto, unfolding(model::specs::Fact::kind, model::specs::Fact::value, model::specs::Tables::cell_of, model::specs::Tables::fact_in, model::specs::Tables::fact_of, model::specs::Transfer::iter_next))]
pub fn iter_next_cell(cell: FactCell) -> FactCell
    ensures { result ≡ cell_of (iter_next (fact_in cell)) }
{
    match cell.kind {
        1 => FactCell::CONFLICT,
        3 => FactCell {
            kind: 3,
            value: cell.value,
        },
        _ => FactCell::UNKNOWN,
    }
}

// `container_fact_written_to_slot`: what a becomes, of an instruction that is no CopyN and no MapIterNext. It takes no InstructionAt, as `effect_of`.
#[tactic(auto, using(fact_row::proofs::TargetCell::targeted, crate::proofs::Targets::unknown_everywhere), unfolding(model::specs::Opcode::select, model::specs::Transfer::container_rule, model::specs::Transfer::container_fact, model::specs::Transfer::copied))]
pub fn container_fact_written_to_slot(
    sheet: &Sheet,
    row: &TrackedRow,
    pc: usize,
    inst: Instruction,
) -> FactCell
    requires instruction_read { (pc < sheet.now.sizes.code_count) × (inst ≡ instruction sheet.now.bytes.now pc) }
    requires other_opcode { (inst.op ≡ 4 → ⊥) × (inst.op ≡ 95 → ⊥) }
    ensures { ((slot : ℕ) → target_cell (eqb inst.a slot) result
        ≡ cell_of (container_fact (container_rule inst.op) sheet.now.bytes.now pc row.now.slots.now (facts_read row.now) slot)) }
{
    match inst.op {
        COPY => row.fact_for_tracked_source(usize::from(inst.b)),
        MAP_ITER_INIT => iter_init_cell(row.fact_for_tracked_source(usize::from(inst.b))),
        op => instruction_fact(sheet, pc, op),
    }
}

// What the index analysis knows of a slot that an instruction writes.
ghost use Rattle.std.specs.Prelude.{◌≡◌, ℕ, eqb};
ghost use Rattle.model.specs.Tables.{cell_of};
ghost use Rattle.model.specs.Transfer.{index_rule, index_fact};
ghost use Rattle.fact_row.specs.Target.{target_cell};
ghost use Rattle.fact_row.specs.Tracked.{facts_read};

use crate::COPY;
use fact_row::TrackedRow;
use model::{FactCell, Instruction};

// `index_check_fact_written_to_slot`: what a becomes, of an instruction that is no CopyN; any other slot that it writes becomes Unknown.
#[tactic(auto, using(fact_row::proofs::TargetCell::targeted, crate::proofs::Targets::unknown_everywhere), unfolding(model::specs::Opcode::select, model::specs::Transfer::index_rule, model::specs::Transfer::index_fact, model::specs::Transfer::copied))]
pub fn index_check_fact_written_to_slot(row: &TrackedRow, inst: Instruction) -> FactCell
    requires { inst.op ≡ 4 → ⊥ }
    ensures { ((slot : ℕ) → target_cell (eqb inst.a slot) result
        ≡ cell_of (index_fact (index_rule inst.op) inst row.now.slots.now (facts_read row.now) slot)) }
{
    match inst.op {
        COPY => row.fact_for_tracked_source(usize::from(inst.b)),
        _ => FactCell::UNKNOWN,
    }
}

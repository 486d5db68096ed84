// What the constant analysis knows of a slot that an instruction writes.
ghost use Rattle.std.specs.Prelude.{◌≡◌, ℕ, ◌+◌, ◌*◌, ◌<◌, eqb, Option};
ghost use Rattle.model.specs.Fact.{Fact};
ghost use Rattle.model.specs.Successors.{imm32};
ghost use Rattle.model.specs.Tables.{fact_in, cell_of};
ghost use Rattle.model.specs.Transfer.{fact_for, integer, load_const, fold, shl, or, constant_rule, constant_fact};
ghost use Rattle.fact_row.specs.Target.{target_cell};
ghost use Rattle.fact_row.specs.Tracked.{facts_read};
ghost use Rattle.transfer_facts.specs.Folds.{folded};

use crate::{COPY, LOAD_CONST, LOAD_INT, OR, SHL};
use cfg::imm32;
use fact_row::TrackedRow;
use model::{FactCell, Instruction};
use sheet_fields::Sheet;

// "constant kinds (k bytes: 0 other, 1 integer)": numbers, since a sheet may hold any byte
const INTEGER: u8 = 1;

// "Constants: 2 known from zero up, 3 negative, value plus 2^64.": the fact of a number
fn integer_cell(number: i64) -> FactCell
    ensures { result ≡ cell_of (integer number) }
{
    let value = number.cast_unsigned();
    if number < 0 {
        FactCell { kind: 3, value }
    } else {
        FactCell { kind: 2, value }
    }
}

// LoadConst of an integer constant; any other, and a number from k up, is Unknown.
#[tactic(auto, unfolding(model::specs::Fact::kind, model::specs::Fact::value, model::specs::Tables::cell_of, model::specs::Transfer::load_const, model::specs::Transfer::loaded))]
fn load_const_cell(sheet: &Sheet, i: usize) -> FactCell
    ensures { result ≡ cell_of (load_const sheet.now.bytes.now i) }
{
    if i < sheet.sizes.constant_count && sheet.constant_kind(i) == INTEGER {
        integer_cell(sheet.constant_bits(i).cast_signed())
    } else {
        FactCell::UNKNOWN
    }
}

// `fold_u64_constant_binary`: what an operation makes of the facts of b and c. "Shl and Or fold only two facts from 0 to 2^64 − 1."
fn fold_u64_constant_binary<F: FnOnce(u64, u64) -> Option<u64>>(
    row: &TrackedRow,
    inst: Instruction,
    operation: F,
) -> FactCell
    requires { F.IsAlwaysCallable operation }
    ensures { (f : ℕ → ℕ → Fact)
        → ((x y : ℕ) (r : Option ℕ) → F.post operation x y r → folded r ≡ f x y)
        → result ≡ cell_of (fold f inst row.now.slots.now (facts_read row.now)) }
{
    let left = row.fact_for_tracked_source(usize::from(inst.b));
    let right = row.fact_for_tracked_source(usize::from(inst.c));
    match (left.kind, right.kind) {
        (2, 2) => match operation(left.value, right.value) {
            Some(value) => FactCell { kind: 2, value },
            None => FactCell::UNKNOWN,
        },
        _ => FactCell::UNKNOWN,
    }
}

// `constant_fact_written_to_slot`: what a becomes, of an instruction that is no CopyN; any other slot that it writes becomes Unknown.
#[tactic(auto, using(fact_row::proofs::TargetCell::targeted, crate::proofs::Targets::unknown_everywhere), unfolding(model::specs::Opcode::select, model::specs::Transfer::constant_rule, model::specs::Transfer::constant_fact, model::specs::Transfer::copied))]
pub fn constant_fact_written_to_slot(sheet: &Sheet, row: &TrackedRow, inst: Instruction) -> FactCell
    requires { inst.op ≡ 4 → ⊥ }
    ensures { ((slot : ℕ) → target_cell (eqb inst.a slot) result
        ≡ cell_of (constant_fact (constant_rule inst.op) sheet.now.bytes.now inst row.now.slots.now (facts_read row.now) slot)) }
{
    match inst.op {
        LOAD_INT => integer_cell(i64::from(imm32(inst))),
        LOAD_CONST => load_const_cell(sheet, usize::from(inst.b)),
        COPY => row.fact_for_tracked_source(usize::from(inst.b)),
        SHL => fold_u64_constant_binary(
            row,
            inst,
            |x, y|
                ensures { folded result ≡ shl x y }
            { if y < 64 { Some(x << y) } else { None } },
        ),
        OR => fold_u64_constant_binary(
            row,
            inst,
            |x, y|
                ensures { folded result ≡ or x y }
            { Some(x | y) },
        ),
        _ => FactCell::UNKNOWN,
    }
}

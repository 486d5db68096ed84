// A row through an instruction, once for the three analyses.
ghost use Rattle.std.specs.Prelude.{◌≡◌, ◌<◌, length};
ghost use Rattle.model.specs.Fact.{Row};
ghost use Rattle.model.specs.Promise.{lent_row};
ghost use Rattle.model.specs.Tables.{RowLies, fact_in, facts_in, row_slices};
ghost use Rattle.model.specs.Transfer.{checked_from, index_checked, transfer_row};
ghost use Rattle.fact_row.specs.Changed.{cells_in, SameRow};
ghost use Rattle.fact_row.specs.Rows.{ReadableRow};
ghost use Rattle.transfer.specs.Analysis.{checks_index};

use crate::rows::write_slots;
use fact_row::{FactRow, TrackedRow, checked_cell};
use memory::copy;
use model::{AnalysisKind, FactCell, Instruction};
use transfer_facts::effect_of;
use transfer_written::{InstructionAt, RangedSheet};

// "Opcodes (decimal)": a number, since an instruction may hold any byte.
const INDEX_CHECK: u8 = 121;

// Whether the instruction sets a from its length: only IndexCheck does, and only in the index analysis.
#[tactic(auto, unfolding(crate::specs::Analysis::checks_index))]
fn checks_index(which: AnalysisKind, op: u8) -> bool
    ensures { result ≡ checks_index which op }
{
    match which {
        AnalysisKind::IndexCheck => op == INDEX_CHECK,
        AnalysisKind::Constant | AnalysisKind::Container => false,
    }
}

// "IndexCheck then sets a from the constant analysis at that instruction", written or not.
fn set_checked(which: AnalysisKind, inst: Instruction, length_fact: FactCell, out: &mut FactRow)
    ensures same { SameRow out.old out.new }
    ensures checked { let fact = checked_from (fact_in length_fact) in
        (row : Row) → RowLies row (cells_in out.old) → RowLies (index_checked (checks_index which inst.op) inst out.old.slots.now fact row) (cells_in out.new) }
{
    if checks_index(which, inst.op) {
        let checked = checked_cell(length_fact);
        out.set(usize::from(inst.a), checked);
    }
}

// "A copy of that instruction's row goes through its transfer.": the row in kinds and values goes into out_kinds and out_values. "All reads
// take the state before the instruction.", and length_fact is what the constant analysis knows of b before it; only the index analysis reads it.
// The row comes as three slices and not as a TrackedRow, which was tried: a proof knows that each number of a slice fits where the slice is a
// parameter, and not where it is a field, and "no slot lies past 65,535" is needed. So what is written comes as two slices: a FactRow would
// bring the same slots a second time.
pub fn transfer_row(
    which: AnalysisKind,
    sheet: &RangedSheet,
    slots: &[u16],
    pc: usize,
    length_fact: FactCell,
    kinds: &[u8],
    values: &[u64],
    out_kinds: &mut [u8],
    out_values: &mut [u64],
)
    requires below { pc < sheet.now.sheet.now.sizes.code_count }
    requires readable_row { ReadableRow slots.now kinds.now values.now
        × (length out_kinds.old ≡ length slots.now) × (length out_values.old ≡ length slots.now) }
    ensures { let old = row_slices kinds.now values.now in
        let out = lent_row out_kinds out_values in
        RowLies (transfer_row which sheet.now.sheet.now.bytes.now slots.now (λ p. fact_in length_fact) pc (facts_in old)) out.exit }
{
    let inst = sheet.sheet.instruction(pc);
    let row = TrackedRow {
        slots,
        kinds,
        values,
    };
    let at = InstructionAt {
        ranged: sheet,
        pc,
        inst,
    };
    let effect = effect_of(which, sheet.sheet, &row, pc, inst);
    let written = at.slots_written(which, &row);
    copy(kinds, out_kinds);
    copy(values, out_values);
    let mut out = FactRow {
        slots,
        kinds: out_kinds,
        values: out_values,
    };
    write_slots(effect, written, sheet.sheet, &row, &mut out);
    set_checked(which, inst, length_fact, &mut out);
}

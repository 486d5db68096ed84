// One step of a run, from the entry that was taken: "A copy of that instruction's row goes through its transfer. Then each successor in order".
ghost use Rattle.std.specs.Prelude.{length};
ghost use Rattle.model.specs.Promise.{lent_row, lent_rows};
ghost use Rattle.model.specs.Sheet.{code_count};
ghost use Rattle.model.specs.Tables.{row_slices, table_slices};
ghost use Rattle.fixpoint_step.specs.Stepped.{StepRequires};
ghost use Rattle.fixpoint_step.specs.OneStep.{sheet_of, StepEnsures, CopyEnsures};

use crate::successors::visit_successors;
use crate::tracked::TrackedAnalysis;
use model::InstructionSuccessors;
use transfer::transfer_row;
use transfer_written::RangedSheet;

// "A copy of that instruction's row goes through its transfer. Then each successor in order": p is the entry taken, the row scratch holds
// the copy. Those of the successors that had news, which are to be added to the list.
pub fn step(
    analysis: &TrackedAnalysis,
    p: usize,
    present: &mut [u8],
    kinds: &mut [u8],
    values: &mut [u64],
    row_kinds: &mut [u8],
    row_values: &mut [u64],
) -> InstructionSuccessors
    requires { let t = table_slices present.old kinds.old values.old in
        StepRequires (code_count (sheet_of analysis.now)) (length analysis.now.slots.now) p t (row_slices row_kinds.old row_values.old) }
    ensures { let t = lent_rows present kinds values in
        let row = lent_row row_kinds row_values in
        StepEnsures analysis.now p t.entry t.exit result × CopyEnsures analysis.now p t.entry row.exit }
{
    let slots = analysis.slots;
    let s = slots.len();
    let at = p * s;
    let end = at + s;
    let indexed = analysis.indexed;
    let sheet = indexed.sheet;
    let ranged = RangedSheet {
        sheet,
        firsts: indexed.firsts,
    };
    transfer_row(
        analysis.which,
        &ranged,
        slots,
        p,
        analysis.lengths[p].cell(),
        &kinds[at..end],
        &values[at..end],
        row_kinds,
        row_values,
    );
    visit_successors(
        analysis.which,
        sheet,
        indexed.classes,
        p,
        present,
        kinds,
        values,
        row_kinds,
        row_values,
    )
}

// The successors of an instruction, at most two.
ghost use Rattle.model.specs.Promise.{lent_rows};
ghost use Rattle.model.specs.Successors.{sheet_successors};
ghost use Rattle.model.specs.Tables.{row_slices, table_slices};
ghost use Rattle.sheet_layouts.specs.Classes.{equal_by};
ghost use Rattle.fixpoint_step.specs.Visits.{NextRequires, NextEnsures, SuccessorsRequires, SuccessorsEnsures};

use crate::visits::join_into;
use cfg::instruction_successors;
use model::{AnalysisKind, InstructionSuccessors};
use sheet_fields::Sheet;

// The k-th successor, if there is one: its row gets the copy or is joined with it. Those that had news, with this one.
fn visit_next(
    which: AnalysisKind,
    classes: &[u16],
    next: InstructionSuccessors,
    k: usize,
    news: InstructionSuccessors,
    present: &mut [u8],
    kinds: &mut [u8],
    values: &mut [u64],
    row_kinds: &[u8],
    row_values: &[u64],
) -> InstructionSuccessors
    requires { NextRequires next k news (table_slices present.old kinds.old values.old) (row_slices row_kinds.now row_values.now) }
    ensures { let t = lent_rows present kinds values in
        let row = row_slices row_kinds.now row_values.now in
        NextEnsures (equal_by which classes.now) next k news t.entry row t.exit result }
{
    if k < usize::from(next.len) {
        let q = next.pcs[k];
        if join_into(
            which, classes, q, present, kinds, values, row_kinds, row_values,
        ) {
            return news.with(q);
        }
    }
    news
}

// "Then each successor in order": each of p's gets the copy or is joined with it. Those that had news, which are to be added to the list.
pub fn visit_successors(
    which: AnalysisKind,
    sheet: &Sheet,
    classes: &[u16],
    p: usize,
    present: &mut [u8],
    kinds: &mut [u8],
    values: &mut [u64],
    row_kinds: &[u8],
    row_values: &[u64],
) -> InstructionSuccessors
    requires { SuccessorsRequires sheet.now.bytes.now p (table_slices present.old kinds.old values.old) (row_slices row_kinds.now row_values.now) }
    ensures { let t = lent_rows present kinds values in
        let row = row_slices row_kinds.now row_values.now in
        SuccessorsEnsures (equal_by which classes.now) (sheet_successors sheet.now.bytes.now p) t.entry row t.exit result }
{
    let next = instruction_successors(sheet.sizes.code_count, p, sheet.instruction(p));
    let none = InstructionSuccessors::NONE;
    // Two calls and no loop: an array whose places are constants is kept in registers, and a step takes a third less time.
    let first = visit_next(
        which, classes, next, 0, none, present, kinds, values, row_kinds, row_values,
    );
    visit_next(
        which, classes, next, 1, first, present, kinds, values, row_kinds, row_values,
    )
}

// One successor of a step: its row gets the copy or is joined with it.
ghost use Rattle.model.specs.Promise.{lent_rows};
ghost use Rattle.model.specs.Tables.{row_slices, table_slices};
ghost use Rattle.sheet_layouts.specs.Classes.{equal_by};
ghost use Rattle.fixpoint_step.specs.Visits.{JoinRequires, JoinEnsures};

use join::join_row;
use memory::copy;
use model::AnalysisKind;

// "without a row, it gets the copy; with one, the copy is joined into it": whether "the row is new or a kind or value changed".
pub fn join_into(
    which: AnalysisKind,
    classes: &[u16],
    q: usize,
    present: &mut [u8],
    kinds: &mut [u8],
    values: &mut [u64],
    row_kinds: &[u8],
    row_values: &[u64],
) -> bool
    requires { JoinRequires q (table_slices present.old kinds.old values.old) (row_slices row_kinds.now row_values.now) }
    ensures { let t = lent_rows present kinds values in
        let row = row_slices row_kinds.now row_values.now in
        JoinEnsures (equal_by which classes.now) q t.entry row t.exit result }
{
    let s = row_kinds.len();
    let at = q * s;
    let end = at + s;
    if present[q] == 0 {
        copy(row_kinds, &mut kinds[at..end]);
        copy(row_values, &mut values[at..end]);
        present[q] = 1;
        true
    } else {
        join_row(
            which,
            classes,
            &mut kinds[at..end],
            &mut values[at..end],
            row_kinds,
            row_values,
        )
    }
}

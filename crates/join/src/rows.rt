// The join of a row: its cells are parts of the tables' kinds and values.
ghost use Rattle.std.specs.Prelude.{◌≡◌, length};
ghost use Rattle.model.specs.Fact.{join};
ghost use Rattle.model.specs.Promise.{lent_row};
ghost use Rattle.model.specs.Tables.{row_slices, RowLies, fact_in, cell_of, facts_in};
ghost use Rattle.sheet_layouts.specs.Classes.{equal_by};
ghost use Rattle.join.specs.Rows.{JoinedRow};

use crate::containers::merge_container_fact;
use crate::facts::merge_number_fact;
use model::{AnalysisKind, FactCell};

// The join of two facts of an analysis.
fn merge_fact_of(which: AnalysisKind, classes: &[u16], old: FactCell, new: FactCell) -> FactCell
    ensures { result ≡ cell_of (join (equal_by which classes.now) (fact_in old) (fact_in new)) }
{
    match which {
        AnalysisKind::Constant | AnalysisKind::IndexCheck => merge_number_fact(old, new),
        AnalysisKind::Container => merge_container_fact(classes, old, new),
    }
}

// "joined into it slot by slot, the old fact first"; whether "a kind or value changed". A join keeps a fact or makes it Unknown or
// Conflict, so a change of value is a change of kind too: only then something is stored. Four slices and no FactRow nor TrackedRow: those have
// the slots too, which a join neither has nor needs; and a struct for the old row would take four `split_at_mut`s of the tables at the one call.
pub fn join_row(
    which: AnalysisKind,
    classes: &[u16],
    kinds: &mut [u8],
    values: &mut [u64],
    new_kinds: &[u8],
    new_values: &[u64],
) -> bool
    requires row_lies { let row = row_slices kinds.old values.old in RowLies (facts_in row) row }
    requires new_kinds_len { (length new_kinds.now ≡ length kinds.old) × (length new_values.now ≡ length kinds.old) }
    ensures { let row = lent_row kinds values in
        let new = row_slices new_kinds.now new_values.now in
        JoinedRow (equal_by which classes.now) row.entry new row.exit result }
{
    let mut changed = false;
    // One index for the four slices: the tables are lent as kinds and values side by side, and a chain of zips is no plainer.
    for i in 0..kinds.len() {
        let was = kinds[i];
        let old = FactCell {
            kind: was,
            value: values[i],
        };
        let new = FactCell {
            kind: new_kinds[i],
            value: new_values[i],
        };
        // equal facts stay, and most are equal
        if old == new {
            continue;
        }
        let joined = merge_fact_of(which, classes, old, new);
        let kind = joined.kind;
        if kind != was {
            kinds[i] = kind;
            values[i] = joined.value;
            changed = true;
        }
    }
    changed
}

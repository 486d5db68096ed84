// The matrix charge and the entry row.
ghost use Rattle.std.specs.Prelude.{◌≡◌, true, ◌≤◌, ◌<◌, length};
ghost use Rattle.model.specs.Lookup.{ascends};
ghost use Rattle.model.specs.Tables.{row_slices};
ghost use Rattle.stage_entry.specs.First.{LeavesRow, zero_row};
ghost use Rattle.stage_prepare.specs.Begin.{entering};

use budget::Outcome;
use fact_row::FactRow;
use model::{AnalysisKind, VerifierResources};
use sheet_fields::Sheet;
use stage_entry::{charge_matrix, first_row};

// "its matrix charge", then the first row with its charges, in a row that is zero; a refusal leaves it zero. The row comes as slices and not
// as a FactRow, which was tried. Of a range of a slice that a field borrows, a proof knows only its length in the end; and with the row made
// by `split_at_mut` calls took 7 percent longer with 64 followed registers and 5 percent with 512.
pub fn entry_row(
    which: AnalysisKind,
    sheet: &Sheet,
    slots: &[u16],
    resources: VerifierResources,
    row_kinds: &mut [u8],
    row_values: &mut [u64],
) -> Outcome
    requires { (ascends slots.now ≡ true) × (row_slices row_kinds.old row_values.old ≡ zero_row (length slots.now))
        × (0 < sheet.now.sizes.code_count) × (0 < length slots.now) × (length slots.now ≤ 65535) }
    ensures { LeavesRow slots.now (entering which sheet.now.bytes.now slots.now resources) result (row_slices row_kinds.new row_values.new) }
{
    let left = charge_matrix(which, sheet.sizes.code_count, slots.len(), resources)?;
    let mut row = FactRow {
        slots,
        kinds: row_kinds,
        values: row_values,
    };
    first_row(which, sheet, left, &mut row)
}

// What a stage is to run, after an outcome; nothing where that is a refusal.
ghost use Rattle.std.specs.Prelude.{◌≡◌};
ghost use Rattle.std.proofs.Math.Option.{some};
ghost use Rattle.model.specs.Sheet.{code_count};
ghost use Rattle.model.specs.Charges.{continue};
ghost use Rattle.model.specs.Call.{zeros};
ghost use Rattle.budget.specs.Outcome.{as_spent, leaves, leaves_of};
ghost use Rattle.stage_prepare.specs.Begin.{begin, enough, MarksAndRowZero};
ghost use Rattle.stage_prepare.specs.Prepare.{outcome_of, prepared_in, prepared_by, unprepared};

use crate::begin::begin_stage;
use crate::{Prepared, Room};
use budget::{Outcome, Refused};
use memory::clear;
use model::AnalysisKind;
use sheet_fields::Sheet;

// Closure, question 8, matrix charge and entry row of the next analysis, in a scratch that is zero; the slots are cleared, and stay so after a refusal.
// The scratch comes slice by slice, here and in what this calls, and not as a LentScratch: each contract would say besides that the work list stays and that the
// same slices are lent, and be no plainer.
pub fn prepare(
    which: AnalysisKind,
    sheet: &Sheet,
    room: Room,
    before: Outcome,
    slots: &mut [u16],
    marks: &mut [u8],
    stack: &mut [u16],
    row_kinds: &mut [u8],
    row_values: &mut [u64],
) -> Result<Prepared, Refused>
    requires { MarksAndRowZero sheet.now.bytes.now marks.old stack.old row_kinds.old row_values.old }
    ensures { let n = code_count sheet.now.bytes.now in
        let ss = slots.old in let rk = row_kinds.old in let rv = row_values.old in
        (some (leaves (outcome_of result) (prepared_in result slots.new row_kinds.new row_values.new))
        ≡ leaves_of (prepared_by n ss rk rv) (unprepared ss rk rv)
        (continue (λ _. begin which sheet.now.bytes.now (enough room sheet.now.bytes.now ss rk rv)) (as_spent before)))
        × (marks.new ≡ zeros marks.old) × (stack.new ≡ zeros stack.old) }
{
    clear(slots);
    let left = before?;
    begin_stage(
        which, sheet, room, left, slots, marks, stack, row_kinds, row_values,
    )
}

// What a stage does before its run: closure, question 8, the matrix charge and the entry row.
ghost use Rattle.std.specs.Prelude.{◌≡◌, true, ◌≤◌, length, take};
ghost use Rattle.std.proofs.Math.Option.{some};
ghost use Rattle.model.specs.Tables.{row_slices};
ghost use Rattle.model.specs.Sheet.{code_count};
ghost use Rattle.model.specs.Lookup.{ascends};
ghost use Rattle.model.specs.Call.{zeros};
ghost use Rattle.budget.specs.Outcome.{leaves, leaves_of};
ghost use Rattle.stage_prepare.specs.Begin.{begin, enter_if, enough, MarksAndRowZero, row_filled, cleared_row};
ghost use Rattle.stage_prepare.specs.Prepare.{something, outcome_of, prepared_in, prepared_by, unprepared};

use crate::entry::entry_row;
use crate::{Prepared, Room};
use budget::{Outcome, Refused};
use closure::tracked_slots;
use memory::clear;
use model::{AnalysisKind, VerifierResources};
use sheet_fields::Sheet;
use stage_memory::room_for;

// "With s or n zero it ends at once"
fn is_something(n: usize, s: usize) -> bool
    ensures { result ≡ something n s }
{
    if n == 0 {
        return false;
    }
    s != 0
}

// Question 8 for s tracked slots, then the matrix charge and the entry row, in a row scratch that is zero. The scratch comes as two slices, as the
// C interface lends them, each of any length: it is a FactRow only once question 8 has found room for s facts.
fn enter_tracked(
    which: AnalysisKind,
    sheet: &Sheet,
    room: Room,
    s: usize,
    slots: &[u16],
    resources: VerifierResources,
    row_kinds: &mut [u8],
    row_values: &mut [u64],
) -> Outcome
    requires { (s ≤ 65535) × (s ≤ length slots.now → ascends (take s slots.now) ≡ true)
        × (row_kinds.old ≡ zeros row_kinds.old) × (row_values.old ≡ zeros row_values.old) }
    ensures { let rk = row_kinds.old in let rv = row_values.old in
        some (leaves result (row_slices row_kinds.new row_values.new))
        ≡ leaves_of (row_filled rk rv) (cleared_row rk rv)
        (enter_if (enough room sheet.now.bytes.now slots.now rk rv s) which sheet.now.bytes.now (take s slots.now) resources) }
{
    let n = sheet.sizes.code_count;
    if !room_for(
        n,
        s,
        slots.len(),
        room.present,
        room.kinds,
        room.values,
        row_kinds.len(),
        row_values.len(),
        room.work_list,
    ) {
        return Err(Refused::NoRoom { left: resources });
    }
    if n == 0 {
        return Ok(resources);
    }
    if s == 0 {
        return Ok(resources);
    }
    entry_row(
        which,
        sheet,
        &slots[..s],
        resources,
        &mut row_kinds[..s],
        &mut row_values[..s],
    )
}

// The closure, then what follows it, in slots and scratch that are zero. Marks and stack are zero again on every outcome, and the
// slots after a refusal.
pub fn begin_stage(
    which: AnalysisKind,
    sheet: &Sheet,
    room: Room,
    resources: VerifierResources,
    slots: &mut [u16],
    marks: &mut [u8],
    stack: &mut [u16],
    row_kinds: &mut [u8],
    row_values: &mut [u64],
) -> Result<Prepared, Refused>
    requires { (slots.old ≡ zeros slots.old) × MarksAndRowZero sheet.now.bytes.now marks.old stack.old row_kinds.old row_values.old }
    ensures { let n = code_count sheet.now.bytes.now in
        let ss = slots.old in let rk = row_kinds.old in let rv = row_values.old in
        (some (leaves (outcome_of result) (prepared_in result slots.new row_kinds.new row_values.new))
        ≡ leaves_of (prepared_by n ss rk rv) (unprepared ss rk rv)
        (begin which sheet.now.bytes.now (enough room sheet.now.bytes.now ss rk rv) resources))
        × (marks.new ≡ zeros marks.old) × (stack.new ≡ zeros stack.old) }
{
    let tracked = tracked_slots(which, sheet, resources, slots, marks, stack)?;
    let s = tracked.s;
    let left = tracked.left;
    let entered = enter_tracked(which, sheet, room, s, slots, left, row_kinds, row_values);
    match entered {
        Ok(left) => Ok(Prepared {
            runs: is_something(sheet.sizes.code_count, s),
            s,
            left,
        }),
        Err(refused) => {
            clear(slots);
            Err(refused)
        }
    }
}

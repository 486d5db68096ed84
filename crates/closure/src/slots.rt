// The three `tracked_..._slots`, once for the three analyses.
ghost use Rattle.std.specs.Prelude.{◌≡◌, ◌≤◌, length};
ghost use Rattle.model.specs.Call.{zeros};
ghost use Rattle.budget.specs.Outcome.{as_spent};
ghost use Rattle.closure.specs.Expanded.{MarksZero};
ghost use Rattle.closure.specs.Closed.{scratch_charges, TrackEnsures};

use crate::Tracked;
use crate::expansion::expand;
use budget::{Outcome, Refused, charge_bytes, metered, stage_number};
use closure_marks::list_slots;
use memory::clear;
use model::{AnalysisKind, VerifierResources};
use sheet_fields::Sheet;

// "mark 1, work slot 2": two charges, for each of L.
// The limit of l is asked: the caller has l from a Sheet, and a type for one bounded number would be no plainer.
fn charge_scratch(stage: u8, l: usize, resources: VerifierResources) -> Outcome
    requires { l ≤ 65535 }
    ensures { as_spent result ≡ scratch_charges stage l resources }
{
    let count = l as u64;
    let left = metered(stage, resources, charge_bytes(resources, count))?;
    metered(stage, left, charge_bytes(left, count * 2))
}

// The same with exactly L marks: the charges, the loop, and the slots, where they fit.
// Marks and stack go as two slices, here and in what calls this, and are a SlotMarks in the loop alone: as a struct each contract would say besides that it
// still lends the same two, as those of a LentScratch do, and be no plainer.
fn track(
    which: AnalysisKind,
    sheet: &Sheet,
    resources: VerifierResources,
    slots: &mut [u16],
    marks: &mut [u8],
    stack: &mut [u16],
) -> Result<Tracked, Refused>
    requires { MarksZero sheet.now.bytes.now marks.old stack.old }
    ensures { TrackEnsures which sheet.now.bytes.now resources marks.old stack.old slots.old result
        marks.new stack.new slots.new }
{
    let scratch = charge_scratch(stage_number(which), sheet.sizes.local_slots, resources)?;
    let left = expand(which, sheet, scratch, marks, stack)?;
    let s = list_slots(marks, slots);
    clear(marks);
    Ok(Tracked { s, left })
}

// The tracked slots of an analysis: how many, and where they fit all of them, ascending. Marks and stack are zero again on every
// outcome. Where s exceeds the slots lent, and on a refusal, these keep their content.
pub fn tracked_slots(
    which: AnalysisKind,
    sheet: &Sheet,
    resources: VerifierResources,
    slots: &mut [u16],
    marks: &mut [u8],
    stack: &mut [u16],
) -> Result<Tracked, Refused>
    requires { (sheet.now.sizes.local_slots ≤ length marks.old) × (sheet.now.sizes.local_slots ≤ length stack.old)
        × (marks.old ≡ zeros marks.old) × (stack.old ≡ zeros stack.old) }
    ensures { TrackEnsures which sheet.now.bytes.now resources marks.old stack.old slots.old result
        marks.new stack.new slots.new }
{
    let l = sheet.sizes.local_slots;
    track(which, sheet, resources, slots, &mut marks[..l], stack)
}

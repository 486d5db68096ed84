// `FactDependencyGraph::expand`: from the seeds along the edges, the slot put last first.
ghost use Rattle.std.specs.Prelude.{◌<◌, IfSome};
ghost use Rattle.closure_edges.specs.Chain.{Tells};
ghost use Rattle.closure.specs.Taking.{Standing, Takes};
ghost use Rattle.closure.specs.Expanded.{MarksZero, ExpandEnsures};

use crate::follow::follow_edges;
use budget::{Outcome, charge_work, metered, stage_number};
use closure_edges::{Chains, Link};
use closure_marks::{SlotMarks, seed_slots};
use memory::clear;
use model::{AnalysisKind, VerifierResources};
use sheet_fields::Sheet;

// The slot on top is taken from the stack, and its edges are followed: how many there are.
// That the chains are of this sheet is asked, here and below: the sheet is needed without chains too, so as a field of theirs it would only go twice.
fn take_slot(
    which: AnalysisKind,
    sheet: &Sheet,
    chains: Option<&Chains>,
    marked: &mut SlotMarks,
) -> u64
    requires { (0 < marked.old.top) × Standing sheet.now.bytes.now marked.old.marks.now marked.old.stack.now marked.old.top
        × IfSome chains (λ c. Tells sheet.now.bytes.now c.now) }
    ensures { Takes which sheet.now.bytes.now marked.old marked.new result }
{
    let d = marked.take();
    follow_edges(which, sheet, chains, d, marked)
}

// Until the stack is empty, or a charge is refused: then marks and stack are cleared. "A refused charge takes nothing."
fn expand_along(
    which: AnalysisKind,
    sheet: &Sheet,
    chains: Option<&Chains>,
    resources: VerifierResources,
    marks: &mut [u8],
    stack: &mut [u16],
) -> Outcome
    requires { MarksZero sheet.now.bytes.now marks.old stack.old × IfSome chains (λ c. Tells sheet.now.bytes.now c.now) }
    ensures { ExpandEnsures which sheet.now.bytes.now resources marks.old stack.old result marks.new stack.new }
{
    let stage = stage_number(which);
    let mut marked = SlotMarks {
        marks,
        stack,
        top: 0,
    };
    seed_slots(which, sheet, &mut marked);
    let mut left = resources;
    while 0 < marked.top {
        let count = take_slot(which, sheet, chains, &mut marked);
        let charged = metered(stage, left, charge_work(left, count));
        let Ok(rest) = charged else {
            let SlotMarks {
                marks,
                stack,
                top: _,
            } = marked;
            clear(marks);
            clear(stack);
            return charged;
        };
        left = rest;
    }
    Ok(left)
}

// The same with the chains that find the edges to a slot, built once. A short script has none: less than 33 instructions are read for
// each slot faster than the tables are cleared.
pub fn expand(
    which: AnalysisKind,
    sheet: &Sheet,
    resources: VerifierResources,
    marks: &mut [u8],
    stack: &mut [u16],
) -> Outcome
    requires { MarksZero sheet.now.bytes.now marks.old stack.old }
    ensures { ExpandEnsures which sheet.now.bytes.now resources marks.old stack.old result marks.new stack.new }
{
    if sheet.sizes.code_count < 33 {
        return expand_along(which, sheet, None, resources, marks, stack);
    }
    let mut heads = [0u16; 2048];
    let mut links = [Link { pc: 0, next: 0 }; 8192];
    let chains = Chains::build(sheet, &mut heads, &mut links);
    expand_along(which, sheet, Some(&chains), resources, marks, stack)
}

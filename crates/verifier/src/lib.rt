// The call: questions 1 to 8, all charges, and the three analyses, on any bytes and any lent buffers.
#![tactic(auto)]

ghost use Rattle.std.specs.Prelude.{◌≡◌};
ghost use Rattle.std.proofs.Math.Option.{some};
ghost use Rattle.model.specs.Call.{analyzed, call_result, lent, table, scratch as scratch_of};
ghost use Rattle.stage_memory.specs.Lent.{SameTable, SameScratch};
ghost use Rattle.model.specs.CallDemand.{LentDemand};
ghost use Rattle.model.specs.declared.Answer.TheVariants.{Analyzed};
ghost use Rattle.model.specs.declared.Counts.{Counts};
ghost use Rattle.model.specs.declared.VerifierResources.{VerifierResources};

use call_indexed::analyze_indexed;
use model::{Answer, VerifierResources};
use sheet_index::{IndexedSheet, index_sheet};
use sheet_questions::admit;
use stage_memory::{LentScratch, LentTable};

// "Questions, in order", the charges and the three analyses. What it answers and what every lent buffer holds afterwards is the call that the
// definitions give (`analyzed`); and of an answer with facts, each analysis took at most n × (1 + 2 × s) entries from its work list, and with
// n and s above zero exactly the instructions reachable from 0 are present, and no fact changes any more (`LentDemand`). Both are told of the slices
// themselves in words of model/specs alone (`scratch_of` is its `scratch`, a name that a parameter has here).
// The tables that it finds are arrays of the most entries that a sheet can need, since there is no heap.
pub fn analyze(
    sheet: &[u8],
    resources: VerifierResources,
    constants: &mut LentTable,
    index: &mut LentTable,
    containers: &mut LentTable,
    scratch: &mut LentScratch,
) -> Answer
    ensures call { let before = lent
        (table constants.old.slots.now constants.old.present.now constants.old.kinds.now constants.old.values.now)
        (table index.old.slots.now index.old.present.now index.old.kinds.now index.old.values.now)
        (table containers.old.slots.now containers.old.present.now containers.old.kinds.now containers.old.values.now)
        (scratch_of scratch.old.marks.now scratch.old.stack.now scratch.old.row_kinds.now scratch.old.row_values.now scratch.old.work_list.now) in
        let after = lent
        (table constants.new.slots.now constants.new.present.now constants.new.kinds.now constants.new.values.now)
        (table index.new.slots.now index.new.present.now index.new.kinds.now index.new.values.now)
        (table containers.new.slots.now containers.new.present.now containers.new.kinds.now containers.new.values.now)
        (scratch_of scratch.new.marks.now scratch.new.stack.now scratch.new.row_kinds.now scratch.new.row_values.now scratch.new.work_list.now) in
        some (call_result result after) ≡ analyzed sheet.now resources before }
    ensures demand { let before = lent
        (table constants.old.slots.now constants.old.present.now constants.old.kinds.now constants.old.values.now)
        (table index.old.slots.now index.old.present.now index.old.kinds.now index.old.values.now)
        (table containers.old.slots.now containers.old.present.now containers.old.kinds.now containers.old.values.now)
        (scratch_of scratch.old.marks.now scratch.old.stack.now scratch.old.row_kinds.now scratch.old.row_values.now scratch.old.work_list.now) in
        let after = lent
        (table constants.new.slots.now constants.new.present.now constants.new.kinds.now constants.new.values.now)
        (table index.new.slots.now index.new.present.now index.new.kinds.now index.new.values.now)
        (table containers.new.slots.now containers.new.present.now containers.new.kinds.now containers.new.values.now)
        (scratch_of scratch.new.marks.now scratch.new.stack.now scratch.new.row_kinds.now scratch.new.row_values.now scratch.new.work_list.now) in
        (constant index container : Counts) (left : VerifierResources) → result ≡ Analyzed constant index container left
        → LentDemand sheet.now resources before constant index container left after }
    ensures same { SameTable constants.old constants.new × SameTable index.old index.new × SameTable containers.old containers.new × SameScratch scratch.old scratch.new }
{
    let sheet = match admit(sheet, scratch.marks.len(), scratch.stack.len()) {
        Ok(sheet) => sheet,
        Err(question) => {
            return Answer::Invalid {
                question,
                left: resources,
            };
        }
    };
    let mut firsts = [0u16; 4096];
    let mut classes = [0u16; 1025];
    index_sheet(&sheet, &mut firsts, &mut classes);
    let indexed = IndexedSheet {
        sheet: &sheet,
        firsts: &firsts,
        classes: &classes,
    };
    analyze_indexed(&indexed, resources, constants, index, containers, scratch)
}

// The three analyses of a sheet whose index is found: questions 7 and 8, and all charges.
#![tactic(auto)]

ghost use Rattle.std.specs.Prelude.{◌≡◌, ◌≤◌, length};
ghost use Rattle.std.proofs.Math.Option.{some};
ghost use Rattle.model.specs.Sheet.{local_slots};
ghost use Rattle.model.specs.Call.{analyzed, call_result};
ghost use Rattle.stage_memory.specs.Lent.{lent_in, SameTable, SameScratch};

use call_order::answer_of;
use call_values::analyze_values;
use fixpoint_step::LengthFact;
use model::{AnalysisKind, Answer, VerifierResources};
use sheet_index::IndexedSheet;
use stage::analyze_stage;
use stage_memory::{LentScratch, LentTable};

// The call of a sheet that questions 1 to 5 accept, with what `index_sheet` finds of it, and marks and stack that have room ("6. Have the marks and
// the closure's stack at least L entries each?"). It promises what `analyze` promises.
pub fn analyze_indexed(
    indexed: &IndexedSheet,
    resources: VerifierResources,
    constants: &mut LentTable,
    index: &mut LentTable,
    containers: &mut LentTable,
    scratch: &mut LentScratch,
) -> Answer
    requires { (local_slots indexed.now.sheet.now.bytes.now ≤ length scratch.old.marks.now) × (local_slots indexed.now.sheet.now.bytes.now ≤ length scratch.old.stack.now) }
    ensures call { let before = lent_in constants.old index.old containers.old scratch.old in
        let after = lent_in constants.new index.new containers.new scratch.new in
        some (call_result result after) ≡ analyzed indexed.now.sheet.now.bytes.now resources before }
    ensures same { SameTable constants.old constants.new × SameTable index.old index.new × SameTable containers.old containers.new × SameScratch scratch.old scratch.new }
{
    let values = analyze_values(indexed, resources, constants, index, scratch);
    // "for index, the ended constant run": to the containers no length is known.
    let unknown = [LengthFact { kind: 0, value: 0 }; 4096];
    let third = analyze_stage(
        AnalysisKind::Container,
        indexed,
        &unknown,
        values.outcome,
        containers,
        scratch,
    );
    let outcome = third.outcome;
    let refused = outcome.is_err();
    constants.clear_if(refused);
    index.clear_if(refused);
    answer_of(outcome, values.constant, values.index, third.counts)
}

// The first two analyses in sequence: constants, then index, which reads the constants.
#![tactic(auto)]

ghost use Rattle.std.specs.Prelude.{◌≡◌, Bool, ℕ, ◌≤◌, length};
ghost use Rattle.std.proofs.Math.Option.{some};
ghost use Rattle.model.specs.Sheet.{code_count, local_slots};
ghost use Rattle.model.specs.Call.{Table, room_for};
ghost use Rattle.budget.specs.Outcome.{leaves, leaves_of};
ghost use Rattle.stage_memory.specs.Lent.{table_in, scratch_in, SameTable, SameScratch};
ghost use Rattle.call_order.specs.Values.{values, valued, valued_by, no_values};

use budget::Outcome;
use call_order::{counts_unless, store_lengths};
use closure_edges::charge_graph;
use fixpoint_step::LengthFact;
use model::{AnalysisKind, Counts, VerifierResources};
use sheet_index::IndexedSheet;
use stage::analyze_stage;
use stage_memory::{LentScratch, LentTable};

// What the first two come to: s and the pop count of each, none after a refusal, and the outcome. It is no Result of the counts, as `stage::Staged`
// is none: the third analysis takes the outcome as it is.
#[derive(Clone, Copy)]
pub struct Values {
    pub constant: Counts,
    pub index: Counts,
    pub outcome: Outcome,
}

// The charges of the graph, then the constant and the index analysis, which reads the constants; both outputs are zero after a refusal.
// The lengths' facts are arrays of the most instructions that a sheet can have, since there is no heap.
pub fn analyze_values(
    indexed: &IndexedSheet,
    resources: VerifierResources,
    constants: &mut LentTable,
    index: &mut LentTable,
    scratch: &mut LentScratch,
) -> Values
    requires { (local_slots indexed.now.sheet.now.bytes.now ≤ length scratch.old.marks.now) × (local_slots indexed.now.sheet.now.bytes.now ≤ length scratch.old.stack.now) }
    ensures left { (
        let c = table_in constants.old in
        let i = table_in index.old in
        let w = scratch_in scratch.old in
        let room : Table → ℕ → Bool = λ t. room_for (code_count indexed.now.sheet.now.bytes.now) t w.row_kinds w.row_values w.work_list in
        some (leaves result.outcome (valued result.constant result.index (table_in constants.new) (table_in index.new) (scratch_in scratch.new)))
        ≡ leaves_of (valued_by c i w) (no_values c i w) (values indexed.now.sheet.now.bytes.now (room c) (room i) resources)
        ) }
    ensures same { SameTable constants.old constants.new × SameTable index.old index.new × SameScratch scratch.old scratch.new }
{
    scratch.clear();
    let mut lengths = [LengthFact { kind: 0, value: 0 }; 4096];
    let begun = charge_graph(indexed.sheet, resources);
    let first = analyze_stage(
        AnalysisKind::Constant,
        indexed,
        &lengths,
        begun,
        constants,
        scratch,
    );
    // Four slices are lent to one call. That is proved of slices with names of their own, not of fields behind a reference (tried).
    let slots = &mut *constants.slots;
    let present = &mut *constants.present;
    let kinds = &mut *constants.kinds;
    let values = &mut *constants.values;
    store_lengths(
        indexed.sheet,
        first.counts,
        slots,
        present,
        kinds,
        values,
        first.outcome,
        &mut lengths,
    );
    let second = analyze_stage(
        AnalysisKind::IndexCheck,
        indexed,
        &lengths,
        first.outcome,
        index,
        scratch,
    );
    let refused = second.outcome.is_err();
    constants.clear_if(refused);
    Values {
        constant: counts_unless(refused, first.counts),
        index: second.counts,
        outcome: second.outcome,
    }
}

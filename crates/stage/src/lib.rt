// One analysis after an outcome: prepared, run, concluded. One function for the three.
#![tactic(auto)]

ghost use Rattle.std.specs.Prelude.{◌≡◌, ◌≤◌, length};
ghost use Rattle.std.proofs.Math.Option.{some};
ghost use Rattle.model.specs.Analyses.{stage};
ghost use Rattle.model.specs.Call.{room_for, zero_table};
ghost use Rattle.model.specs.Charges.{continue};
ghost use Rattle.model.specs.Sheet.{code_count};
ghost use Rattle.budget.specs.Outcome.{as_spent, leaves, leaves_of};
ghost use Rattle.fixpoint_step.specs.Lengths.{lengths_in};
ghost use Rattle.stage_memory.specs.Lent.{table_in, scratch_in, SameTable, SameScratch};
ghost use Rattle.stage_memory.specs.Stage.{zero_scratch};
ghost use Rattle.stage_memory.specs.Staged.{ScratchZero, no_counts, staged, staged_by};

mod conclusion;

use crate::conclusion::conclude_run;
use budget::Outcome;
use fixpoint::run_to_fixpoint;
use fixpoint_step::{LengthFact, TrackedAnalysis};
use memory::clear_rows;
use model::{AnalysisKind, Counts};
use sheet_index::IndexedSheet;
use stage_memory::{LentScratch, LentTable};
use stage_prepare::{Room, prepare};

// The counts of an analysis, none after a refusal, and the outcome with its charges. It is no Result of the counts: the next analysis takes the outcome
// whether or not it is a refusal, since it clears its own output after one, and the counts go on apart from it.
#[derive(Clone, Copy)]
pub struct Staged {
    pub counts: Counts,
    pub outcome: Outcome,
}

// The next analysis, in a scratch that is zero; its output is cleared, and stays so where the outcome so far is a refusal.
pub fn analyze_stage(
    which: AnalysisKind,
    indexed: &IndexedSheet,
    lengths: &[LengthFact],
    before: Outcome,
    output: &mut LentTable,
    scratch: &mut LentScratch,
) -> Staged
    requires lengths { code_count indexed.now.sheet.now.bytes.now ≤ length lengths.now }
    requires scratch_zero { ScratchZero indexed.now.sheet.now.bytes.now (scratch_in scratch.old) }
    ensures left { let t = table_in output.old in
        let w = scratch_in scratch.old in
        let room = room_for (code_count indexed.now.sheet.now.bytes.now) t w.row_kinds w.row_values w.work_list in
        some (leaves result.outcome (staged result.counts (table_in output.new) (scratch_in scratch.new)))
        ≡ leaves_of (staged_by t w) (staged no_counts (zero_table t) (zero_scratch w))
        (continue (λ _. stage which indexed.now.sheet.now.bytes.now room (lengths_in lengths.now)) (as_spent before)) }
    ensures same { SameTable output.old output.new × SameScratch scratch.old scratch.new }
{
    clear_rows(output.present, output.kinds, output.values);
    let room = Room {
        present: output.present.len(),
        kinds: output.kinds.len(),
        values: output.values.len(),
        work_list: scratch.work_list.len(),
    };
    let prepared = match prepare(
        which,
        indexed.sheet,
        room,
        before,
        output.slots,
        scratch.marks,
        scratch.stack,
        scratch.row_kinds,
        scratch.row_values,
    ) {
        Ok(prepared) => prepared,
        Err(refused) => {
            return Staged {
                counts: Counts::NONE,
                outcome: Err(refused),
            };
        }
    };
    let s = prepared.s;
    let left = prepared.left;
    if !prepared.runs {
        return Staged {
            counts: Counts {
                tracked: s as u64,
                pops: 0,
            },
            outcome: Ok(left),
        };
    }
    let n = indexed.sheet.sizes.code_count;
    let cells = n * s;
    // Parts of several slices are lent at once. That is proved of slices with names of their own, not of fields behind a reference (tried).
    let slots = &mut *output.slots;
    let present = &mut *output.present;
    let kinds = &mut *output.kinds;
    let values = &mut *output.values;
    let row_kinds = &mut *scratch.row_kinds;
    let row_values = &mut *scratch.row_values;
    let work_list = &mut *scratch.work_list;
    let analysis = TrackedAnalysis {
        which,
        indexed: &*indexed,
        lengths,
        slots: &slots[..s],
    };
    let ran = run_to_fixpoint(
        &analysis,
        left,
        &mut present[..n],
        &mut kinds[..cells],
        &mut values[..cells],
        &mut row_kinds[..s],
        &mut row_values[..s],
        work_list,
    );
    conclude_run(s, ran, slots)
}

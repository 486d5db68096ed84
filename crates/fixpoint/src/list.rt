// The defined run, from its first row to its end.
ghost use Rattle.std.specs.Prelude.{◌≡◌, length};
ghost use Rattle.std.proofs.Math.Option.{some};
ghost use Rattle.model.specs.Analyses.{propagate};
ghost use Rattle.model.specs.Sheet.{code_count};
ghost use Rattle.model.specs.Tables.{facts_of};
ghost use Rattle.budget.specs.Outcome.{leaves, leaves_of};
ghost use Rattle.fixpoint_step.specs.OneStep.{sheet_of, lengths_of};
ghost use Rattle.fixpoint.specs.Memory.{run_memory, lent_run, zero_run};
ghost use Rattle.fixpoint.specs.Turn.{RunRequires};
ghost use Rattle.fixpoint.specs.Result.{outcome_of, pops_of, ran, ran_tables};

use crate::Ran;
use crate::answer::{ended, refused};
use budget::Refused;
use fixpoint_list::{clear, enter, enter_each, take};
use fixpoint_step::{TrackedAnalysis, join_into, step};
use memory::{clear_row, clear_rows};
use model::VerifierResources;

// "instruction 0 starts with a row .., and the list holds 0 alone": instruction 0 gets the first row, which is lent as the row scratch. Then
// "A step takes the entry added last and counts 1. A copy of that instruction's row goes through its transfer. Then each successor in order",
// until "The empty list ends the run" or a step's charge is refused. Pops and what is left are the defined run's; what is lent holds its tables, or zeros.
pub fn run_to_fixpoint(
    analysis: &TrackedAnalysis,
    resources: VerifierResources,
    present: &mut [u8],
    kinds: &mut [u8],
    values: &mut [u64],
    row_kinds: &mut [u8],
    row_values: &mut [u64],
    work_list: &mut [u16],
) -> Result<Ran, Refused>
    requires { let m = run_memory present.old kinds.old values.old row_kinds.old row_values.old work_list.old in
        RunRequires (code_count (sheet_of analysis.now)) (length analysis.now.slots.now) m }
    ensures { let m = lent_run present kinds values row_kinds row_values work_list in
        let a = analysis.now in
        let first = facts_of m.entry.row_kinds m.entry.row_values in
        some (leaves (outcome_of result) (ran (pops_of result) m.exit))
        ≡ leaves_of (ran_tables (zero_run m.entry)) (ran 0 (zero_run m.entry)) (propagate a.which (sheet_of a) a.slots.now (lengths_of a) first resources) }
{
    join_into(
        analysis.which,
        analysis.indexed.classes,
        0,
        present,
        kinds,
        values,
        row_kinds,
        row_values,
    );
    let mut top = enter(0, 0, work_list);
    let cost = analysis.slots.len() as u64;
    let mut pops: u64 = 0;
    let mut rest = resources.work;
    while 0 < top && cost <= rest {
        let p = take(top, work_list);
        top -= 1;
        rest -= cost;
        pops += 1;
        let news = step(analysis, p, present, kinds, values, row_kinds, row_values);
        let entries = &news.pcs[..news.len as usize];
        top = enter_each(entries, top, work_list);
    }
    // "Success leaves scratch .. zero": the row scratch, and after a refused charge the tables too
    clear_row(row_kinds, row_values);
    if 0 < top {
        clear(work_list);
        clear_rows(present, kinds, values);
        Err(refused(analysis.which, cost, resources, rest))
    } else {
        Ok(ended(pops, resources, rest))
    }
}

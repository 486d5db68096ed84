// The end of a stage that ran: its counts, and its slots.
ghost use Rattle.std.specs.Prelude.{cond, ◌≡◌, is_err};
ghost use Rattle.model.specs.Call.{zeros};
ghost use Rattle.fixpoint.specs.Result.{outcome_of, pops_of};
ghost use Rattle.stage_memory.specs.Stage.{counts_if};

use crate::Staged;
use budget::Refused;
use fixpoint::Ran;
use memory::clear;
use model::Counts;

// "answers s and the pop count of each analysis": of a run over s tracked slots, and its outcome. "After 7 and 8 all lent output .. is zero":
// the slots, since the run has cleared the rest.
pub fn conclude_run(s: usize, ran: Result<Ran, Refused>, slots: &mut [u16]) -> Staged
    ensures { let o = outcome_of ran in
        (result.outcome ≡ o) × (result.counts ≡ counts_if (is_err o) s (pops_of ran)) × (slots.new ≡ cond (is_err o) (zeros slots.old) slots.old) }
{
    match ran {
        Ok(ran) => Staged {
            counts: Counts {
                tracked: s as u64,
                pops: ran.pops,
            },
            outcome: Ok(ran.left),
        },
        Err(refused) => {
            clear(slots);
            Staged {
                counts: Counts::NONE,
                outcome: Err(refused),
            }
        }
    }
}

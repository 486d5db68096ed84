// How a run ends: by the empty list, or by a refused charge.
ghost use Rattle.std.specs.Prelude.{◌≡◌};
ghost use Rattle.fixpoint.specs.Result.{run_ended, run_refused};

use crate::Ran;
use budget::{Refused, stage_number};
use model::{AnalysisKind, VerifierResources};

// "The empty list ends the run": its pop count, and the work left of the resources.
#[tactic(auto, unfolding(crate::specs::Result::run_ended))]
pub fn ended(pops: u64, resources: VerifierResources, work: u64) -> Ran
    ensures { result ≡ run_ended pops resources work }
{
    let left = VerifierResources {
        bytes: resources.bytes,
        work,
    };
    Ran { pops, left }
}

// "a refused one ends it with 7": the work remaining is what is left.
#[tactic(auto, unfolding(crate::specs::Result::run_refused))]
pub fn refused(
    which: AnalysisKind,
    requested: u64,
    resources: VerifierResources,
    remaining: u64,
) -> Refused
    ensures { result ≡ run_refused which requested resources remaining }
{
    let left = VerifierResources {
        bytes: resources.bytes,
        work: remaining,
    };
    Refused::OverBudget {
        stage: stage_number(which),
        requested,
        remaining,
        left,
    }
}

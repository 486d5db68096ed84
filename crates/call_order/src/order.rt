// "Order: flow graph, dependencies, constants, index, containers.": the three analyses one after the other, as laws, and their answer.
ghost use Rattle.std.specs.Prelude.{◌≡◌};
ghost use Rattle.call_order.specs.Answer.{counts_unless, answer_of};

use budget::{Outcome, Refused};
use model::{Answer, Counts};

// The counts of an analysis: none where a later one was refused. What C reads is the zero counts, so no Option is given in their place.
pub fn counts_unless(refused: bool, counts: Counts) -> Counts
    ensures { result ≡ counts_unless refused counts }
{
    if refused {
        return Counts::NONE;
    }
    counts
}

// "answers s and the pop count of each analysis and the budget"; 7; 8
pub fn answer_of(outcome: Outcome, constant: Counts, index: Counts, container: Counts) -> Answer
    ensures { result ≡ answer_of outcome constant index container }
{
    match outcome {
        Ok(left) => Answer::Analyzed {
            constant,
            index,
            container,
            left,
        },
        Err(refused) => match refused {
            Refused::OverBudget {
                stage,
                requested,
                remaining,
                left,
            } => Answer::OverBudget {
                stage,
                requested,
                remaining,
                left,
            },
            Refused::NoRoom { left } => Answer::NoRoom { left },
        },
    }
}

// The twelve numbers of a call's answer, as C is handed them.
ghost use Rattle.std.specs.Prelude.{◌≡◌, ◌++◌, ◌≤◌, length, drop};
ghost use Rattle.model.specs.Call.{answer_numbered};
ghost use Rattle.model.specs.Interface.{twelve};
ghost use Rattle.export_numbers.specs.Numbers.{entries, nothing};

use model::{Answer, Counts, VerifierResources};

// All twelve, in the order that the C interface gives them.
#[tactic(auto, unfolding(crate::specs::Numbers::numbers_compute))]
fn entries(
    number: u8,
    constant: Counts,
    index: Counts,
    container: Counts,
    left: VerifierResources,
    stage: u8,
    requested: u64,
    remaining: u64,
) -> [u64; 12]
    ensures { result ≡ entries number constant index container left stage requested remaining }
{
    [
        number as u64,
        constant.tracked,
        constant.pops,
        index.tracked,
        index.pops,
        container.tracked,
        container.pops,
        left.bytes,
        left.work,
        stage as u64,
        requested,
        remaining,
    ]
}

// The number of an outcome without counts, and its twelve numbers.
#[tactic(auto, unfolding(crate::specs::Numbers::numbers_compute))]
fn refusal(
    number: u8,
    left: VerifierResources,
    stage: u8,
    requested: u64,
    remaining: u64,
) -> (u8, [u64; 12])
    ensures { (result.0 ≡ number) × (result.1 ≡ entries number nothing nothing nothing left stage requested remaining) }
{
    (
        number,
        entries(
            number,
            Counts::NONE,
            Counts::NONE,
            Counts::NONE,
            left,
            stage,
            requested,
            remaining,
        ),
    )
}

// The number of an answer, and its twelve numbers.
fn numbered(answer: Answer) -> (u8, [u64; 12])
    ensures { (result.0 ≡ (answer_numbered answer).number) × (result.1 ≡ twelve (answer_numbered answer)) }
{
    match answer {
        Answer::Analyzed {
            constant,
            index,
            container,
            left,
        } => (0, entries(0, constant, index, container, left, 0, 0, 0)),
        Answer::Invalid { question, left } => refusal(question.number(), left, 0, 0, 0),
        Answer::OverBudget {
            stage,
            requested,
            remaining,
            left,
        } => refusal(7, left, stage, requested, remaining),
        Answer::NoRoom { left } => refusal(8, left, 0, 0, 0),
    }
}

// The answer's numbers at the front of out, which has at least 12 entries and keeps those behind them; the first of them is the result.
pub fn put_answer(answer: Answer, out: &mut [u64]) -> u8
    requires { 12 ≤ length out.old }
    ensures { (out.new ≡ twelve (answer_numbered answer) ++ drop 12 out.old) × (result ≡ (answer_numbered answer).number) }
{
    let (number, twelve) = numbered(answer);
    out[..12].copy_from_slice(&twelve);
    number
}

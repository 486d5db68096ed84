// "Charges": one charge, and equal charges in a row, made from a budget by value; what a part of the call that spends comes to.
#![tactic(auto)]

ghost use Rattle.std.specs.Prelude.{cond, ◌≡◌, ◌-◌, leb, Ok, Err};
ghost use Rattle.model.specs.Charges.{units, short, charge_bytes, charge_work, in_stage, spend_bytes, for_each};
ghost use Rattle.model.specs.Closure.{stage_number};
ghost use Rattle.budget.specs.Outcome.{as_spent, left_after, left_of};

use model::{AnalysisKind, Shortage, VerifierResources};

// What ends a part of the call that spends: "7, with stage (1 to 5 in charge order), requested, remaining"; or 8. It has what the covered
// charges left.
#[derive(Clone, Copy, PartialEq, Eq)]
pub enum Refused {
    OverBudget {
        stage: u8,
        requested: u64,
        remaining: u64,
        left: VerifierResources,
    },
    NoRoom {
        left: VerifierResources,
    },
}

// What a part of the call that spends comes to: what is left, or what ends it.
pub type Outcome = Result<VerifierResources, Refused>;

// "stage (1 to 5 in charge order)", of an analysis. A number, as document 01 has it and C is told: nothing asks which stage it is.
pub fn stage_number(which: AnalysisKind) -> u8
    ensures { result ≡ stage_number which }
{
    match which {
        AnalysisKind::Constant => 3,
        AnalysisKind::IndexCheck => 4,
        AnalysisKind::Container => 5,
    }
}

impl Refused {
    // "what the covered charges left"
    pub fn left(self) -> VerifierResources
        ensures { result ≡ left_after self }
    {
        match self {
            Refused::OverBudget {
                stage: _,
                requested: _,
                remaining: _,
                left,
            } => left,
            Refused::NoRoom { left } => left,
        }
    }
}

// "what the covered charges left", refused or not
pub fn left_of(outcome: Outcome) -> VerifierResources
    ensures { result ≡ left_of outcome }
{
    match outcome {
        Ok(left) => left,
        Err(refused) => refused.left(),
    }
}

// "7. Does what is left cover the charge?": what is left of what there was, or what was asked and what there was.
fn cover(have: u64, amount: u64) -> Result<u64, Shortage>
    ensures { result ≡ cond (leb amount have) (Ok (have - amount)) (Err (short amount have)) }
{
    if amount <= have {
        Ok(have - amount)
    } else {
        Err(Shortage {
            requested: amount,
            remaining: have,
        })
    }
}

// A charge of bytes. "A refused charge takes nothing."
pub fn charge_bytes(
    resources: VerifierResources,
    amount: u64,
) -> Result<VerifierResources, Shortage>
    ensures { result ≡ charge_bytes amount resources }
{
    let bytes = cover(resources.bytes, amount)?;
    Ok(VerifierResources {
        bytes,
        work: resources.work,
    })
}

// The same for work.
pub fn charge_work(resources: VerifierResources, amount: u64) -> Result<VerifierResources, Shortage>
    ensures { result ≡ charge_work amount resources }
{
    let work = cover(resources.work, amount)?;
    Ok(VerifierResources {
        bytes: resources.bytes,
        work,
    })
}

// A charge made from the resources, as a part of a stage: they are what is left where it was refused.
pub fn metered(
    stage: u8,
    resources: VerifierResources,
    charge: Result<VerifierResources, Shortage>,
) -> Outcome
    ensures { as_spent result ≡ in_stage stage resources charge }
{
    match charge {
        Ok(left) => Ok(left),
        Err(short) => Err(Refused::OverBudget {
            stage,
            requested: short.requested,
            remaining: short.remaining,
            left: resources,
        }),
    }
}

// "dependency 4": count charges of 4 bytes, one after the other. They are one computation: what is refused is the first that
// finds fewer than 4 bytes, so that the rest of a division by 4 remains. No product is made before the count is known to be covered.
pub fn charge_edges(stage: u8, resources: VerifierResources, count: u64) -> Outcome
    ensures { as_spent result ≡ for_each (λ i. spend_bytes stage units.dependency) count resources }
{
    let bytes = resources.bytes;
    let work = resources.work;
    if count <= bytes / 4 {
        Ok(VerifierResources {
            bytes: bytes - 4 * count,
            work,
        })
    } else {
        let rest = bytes % 4;
        Err(Refused::OverBudget {
            stage,
            requested: 4,
            remaining: rest,
            left: VerifierResources { bytes: rest, work },
        })
    }
}

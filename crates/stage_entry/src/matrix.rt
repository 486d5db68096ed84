// "its matrix charge": n × s facts.
ghost use Rattle.std.specs.Prelude.{◌≡◌, ◌*◌, ◌≤◌};
ghost use Rattle.model.specs.Charges.{spend_bytes};
ghost use Rattle.model.specs.Closure.{stage_number};
ghost use Rattle.model.specs.Analyses.{fact_bytes};
ghost use Rattle.budget.specs.Outcome.{as_spent};

use budget::{Outcome, charge_bytes, metered, stage_number};
use model::{AnalysisKind, VerifierResources};

// "constant fact 32, index fact 4, container fact 40"
#[tactic(auto, unfolding(model::specs::Analyses::fact_bytes))]
fn fact_bytes(which: AnalysisKind) -> u64
    ensures { (result ≡ fact_bytes which) × (result ≤ 40) }
{
    match which {
        AnalysisKind::Constant => 32,
        AnalysisKind::IndexCheck => 4,
        AnalysisKind::Container => 40,
    }
}

// The matrix of n rows of s facts, charged to the analysis' stage.
// Their limits are asked, so that the product does not wrap: the caller has n from a Sheet and s from its slots, and a type for each of the two numbers would
// be no plainer.
pub fn charge_matrix(
    which: AnalysisKind,
    n: usize,
    s: usize,
    resources: VerifierResources,
) -> Outcome
    requires { (n ≤ 4096) × (s ≤ 65535) }
    ensures { as_spent result ≡ spend_bytes (stage_number which) (n * s * fact_bytes which) resources }
{
    let amount = n as u64 * s as u64 * fact_bytes(which);
    metered(
        stage_number(which),
        resources,
        charge_bytes(resources, amount),
    )
}

// The defined run, from its first row to its end, with what is cleared behind it. One loop for the three analyses.
#![tactic(auto)]

mod answer;
mod list;

pub use list::run_to_fixpoint;
use model::VerifierResources;

// What a run to its end gives: its pop count, and what is left.
#[derive(Clone, Copy)]
pub struct Ran {
    pub pops: u64,
    pub left: VerifierResources,
}

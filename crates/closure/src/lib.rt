// The edges to one slot, counted and followed.
// `FactDependencyGraph::expand`: from the seeds along the edges, the slot put last first.
// "Budget and closure": the tracked slots of each analysis.
#![tactic(auto)]

mod expansion;
mod follow;
mod slots;

use model::VerifierResources;
pub use slots::tracked_slots;

// The tracked slots of an analysis: how many there are, and what their closure left of the resources.
#[derive(Clone, Copy)]
pub struct Tracked {
    pub s: usize,
    pub left: VerifierResources,
}

// One step of a run, from the entry that was taken: "A copy of that instruction's row goes through its transfer. Then each successor in order".
// The work list is not seen: what had news is answered by value.
// The tables and the row go as five slices through a step and the run. As structs each contract, and the run's invariant, would say besides that the same
// slices are still lent, as those of a LentTable do, and be no plainer.
#![tactic(auto)]

mod lengths;
mod one_step;
mod successors;
mod tracked;
mod visits;

pub use lengths::LengthFact;
pub use one_step::step;
pub use tracked::TrackedAnalysis;
pub use visits::join_into;

// Question 8, and the lent memory: what is cleared of it, before an analysis and behind it.
#![tactic(auto)]

mod lent;
mod room;

pub use lent::{LentScratch, LentTable};
pub use room::room_for;

// Answers and facts as numbers, in lent memory: document 01's own, 254 for "none", 255 where the memory for a fact is too short.
#![tactic(auto)]

mod answers;
mod facts;

pub use answers::put_answer;
pub use facts::{put_slot_fact, reached};

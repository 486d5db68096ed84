// Facts as cells, the fact of a note, and a slot's place among the tracked ones with its fact in a row.
#![tactic(auto)]

mod bound;
mod cells;
mod notes;
mod row;

pub use bound::{find, lower_bound};
pub use cells::{checked_cell, map_cell, queue_cell};
pub use notes::instruction_fact;
pub use row::{FactRow, TrackedRow};

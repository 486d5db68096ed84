// "Join" of two facts as they lie in the tables: the two merges.
// The join of a row: its cells are parts of the tables' kinds and values.
#![tactic(auto)]

mod containers;
mod facts;
mod rows;

pub use containers::merge_container_fact;
pub use facts::merge_number_fact;
pub use rows::join_row;

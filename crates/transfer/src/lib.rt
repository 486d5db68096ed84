// "Transfers": facts written into a row, and a row of facts through an instruction.
#![tactic(auto)]

mod row;
mod rows;

pub use row::transfer_row;

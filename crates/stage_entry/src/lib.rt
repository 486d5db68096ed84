// What an analysis charges before its run, and the first row of the run: "Parameters" where they begin, the fact that each brings, charged.
#![tactic(auto)]

mod layouts;
mod matrix;
mod params;
mod row;
mod seeds;

pub use matrix::charge_matrix;
pub use row::first_row;

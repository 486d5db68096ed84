// The text of a listing, written on a page: what a call answered and left, analysis by analysis, and its last line.
#![tactic(auto)]

mod answer;
mod call;
mod rows;

pub use call::call_lines;

// A stage up to its run: closure, question 8, matrix charge and entry row. It sees neither tables nor work list.
#![tactic(auto)]

mod begin;
mod entry;
mod preparation;

use model::VerifierResources;
pub use preparation::prepare;

// How long the tables and the work list are, of which question 8 asks.
#[derive(Clone, Copy)]
pub struct Room {
    pub present: usize,
    pub kinds: usize,
    pub values: usize,
    pub work_list: usize,
}

// What is to run: whether anything is, and how many slots are tracked; and what the charges so far left. `runs` is no Option of the count: with
// no instruction nothing runs, and the tracked slots are counted all the same. It follows from n and s, and stays: "With s or n zero it ends at once"
// is tested in this crate, for the charges and for the run; without `runs` the caller would have the same test once more.
#[derive(Clone, Copy)]
pub struct Prepared {
    pub runs: bool,
    pub s: usize,
    pub left: VerifierResources,
}

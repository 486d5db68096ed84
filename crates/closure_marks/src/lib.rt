// "mark 1, work slot 2": the marks and the stack of a closure, and the marked slots.
// "Seeds as in `tracked_constant_slots`, `tracked_index_check_slots`, `tracked_container_slots`": the seeds of an analysis, marked.
#![tactic(auto)]

mod mark;
mod seeds;
mod slots;

pub use mark::SlotMarks;
pub use seeds::seed_slots;
pub use slots::list_slots;

// At most two slots, in order. An Option has one, and in an array with a length beside it the places behind the length would say nothing.
#[derive(Clone, Copy)]
pub enum Candidates {
    None,
    One(usize),
    Two(usize, usize),
}

// The fields of an instruction that are seeds, in the order of the Rust. An Option of the other five would put Some around each arm that makes or
// reads one.
#[derive(Clone, Copy)]
enum Fields {
    None,
    A,
    B,
    C,
    BAndNext,
    AAndB,
}

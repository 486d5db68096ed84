// What a case is made of, and the lines that are printed of it.
#![tactic(auto)]

mod cases;
mod lines;
mod text;

pub use lines::{accepted_line, refused_corner_line};
use model::FactCell;
pub use text::answer_line;
use thiserror::Error;

// What comes first in a case, in 8 bytes: the length of its name (8-bit), 0, how many questions it asks (16-bit), the length of its sheet (32-bit).
#[derive(Clone, Copy)]
pub struct Head {
    pub name: usize,
    pub questions: u16,
    pub sheet: usize,
}

// A question about a sheet, in 16 bytes: what is asked, the kind of the fact (8-bit each), the instruction, the slot, 0 (16-bit each), the value of
// the fact (64-bit).
#[derive(Clone, Copy)]
pub struct Question {
    pub asks: Result<Asked, UnknownAsked>,
    pub pc: usize,
    pub slot: u16,
    pub before: FactCell,
}

// What a question asks: the successors of an instruction, whether it writes a slot, and the same in the index analysis.
#[derive(Clone, Copy, Debug, PartialEq, Eq)]
pub enum Asked {
    Successors = 1,
    Writes = 2,
    IndexWrites = 3,
}

// A number that asks none of these.
#[derive(Clone, Copy, Debug, PartialEq, Eq, Drop, Error)]
#[error("{number} is no number of what can be asked")]
pub struct UnknownAsked {
    pub number: u8,
}

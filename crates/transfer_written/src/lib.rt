// "Written slots": which slots an instruction writes, found once, and whether a slot is among them.
#![tactic(auto)]

ghost use Rattle.std.specs.Prelude.{◌≡◌, ◌<◌};
ghost use Rattle.model.specs.Sheet.{code_count, first_range, instruction};
ghost use Rattle.memory.specs.Front.{Holds};
ghost use Rattle.sheet.specs.Measured.{Accepted};

mod elements;
mod ranges;
mod slots;

use model::Instruction;
pub use ranges::{range_count, range_of};
use sheet_fields::Sheet;

// A sheet that none of the questions 1 to 5 refuses, and the number of each instruction's first range. It is no IndexedSheet: what is written needs
// no classes of layouts. That pc lies below the code's count is asked of each call, for the reason given at `Sheet`.
#[derive(Clone, Copy)]
pub struct RangedSheet<'a> {
    pub sheet: &'a Sheet<'a>,
    pub firsts: &'a [u16],
    pub ghost accepted: { Accepted sheet.now.bytes.now sheet.now.sizes },
    pub ghost held: { Holds (first_range sheet.now.bytes.now) (code_count sheet.now.bytes.now) firsts.now },
}

// An instruction of the code, read once, with its number and its sheet.
#[derive(Clone, Copy)]
pub struct InstructionAt<'a> {
    pub ranged: &'a RangedSheet<'a>,
    pub pc: usize,
    pub inst: Instruction,
    pub ghost below: { pc < ranged.now.sheet.now.sizes.code_count },
    pub ghost read: { inst ≡ instruction ranged.now.sheet.now.bytes.now pc },
}

// The slots that an instruction writes: those of one range, or of count ranges of the sheet from the range first on.
#[derive(Clone, Copy)]
pub enum Written {
    Span { start: u16, count: u64 },
    Ranges { first: usize, count: usize },
}

// One range of slots.
#[derive(Clone, Copy)]
pub struct SlotRange {
    pub start: u16,
    pub count: u64,
}

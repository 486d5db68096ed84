// What a sheet says of each instruction: its code, its note, and the slots that it writes.
#![tactic(auto, using(sheet::proofs::FieldBounds::arrays_inside), unfolding(sheet::specs::Sizes::sizes_of, sheet::specs::Sizes::places_of, model::specs::Sheet::note_kind, model::specs::Sheet::note_a, model::specs::Sheet::note_b, model::specs::Sheet::write_count, model::specs::Sheet::range_start, model::specs::Sheet::range_length, model::specs::Sheet::ranges_of, model::specs::Sheet::erred, model::specs::Sheet::instruction, model::specs::Sheet::code_at))]

ghost use Rattle.std.specs.Prelude.{◌≡◌, ◌+◌, ◌*◌, ◌≤◌, length};
ghost use Rattle.model.specs.Sheet.{instruction};

use crate::Sheet;
use model::Instruction;
use sheet::{Number, element};

// The instruction at pc of any bytes that reach so far: op, flags, a, b, c.
pub fn instruction_at(bytes: &[u8], pc: usize) -> Instruction
    requires { 40 + 8 * pc + 8 ≤ length bytes.now }
    ensures { result ≡ instruction bytes.now pc }
{
    let at = 40 + 8 * pc;
    Instruction {
        op: u8::read(bytes, at),
        flags: u8::read(bytes, at + 1),
        a: u16::read(bytes, at + 2),
        b: u16::read(bytes, at + 4),
        c: u16::read(bytes, at + 6),
    }
}

impl Sheet<'_> {
    ghost use Rattle.std.specs.Prelude.{◌≡◌, ◌<◌};
    ghost use Rattle.model.specs.Sheet.{instruction, note_kind, note_a, note_b, write_count, ranges_of, range_start, range_length};

    // The instruction at pc.
    pub fn instruction(&self, pc: usize) -> Instruction
        requires { pc < self.now.sizes.code_count }
        ensures { result ≡ instruction self.now.bytes.now pc }
    {
        instruction_at(self.bytes, pc)
    }

    // The kind of the note at pc.
    pub fn note_kind(&self, pc: usize) -> u8
        requires { pc < self.now.sizes.code_count }
        ensures { result ≡ note_kind self.now.bytes.now pc }
    {
        element(self.bytes, self.sizes.places.note_kinds, pc)
    }

    // The layout A of the note at pc.
    pub fn note_a(&self, pc: usize) -> u16
        requires { pc < self.now.sizes.code_count }
        ensures { result ≡ note_a self.now.bytes.now pc }
    {
        element(self.bytes, self.sizes.places.note_as, pc)
    }

    // The layout B of the note at pc.
    pub fn note_b(&self, pc: usize) -> u16
        requires { pc < self.now.sizes.code_count }
        ensures { result ≡ note_b self.now.bytes.now pc }
    {
        element(self.bytes, self.sizes.places.note_bs, pc)
    }

    // The write count at pc; 65,535 says that the effect visitor erred.
    pub fn write_count(&self, pc: usize) -> u16
        requires { pc < self.now.sizes.code_count }
        ensures { result ≡ write_count self.now.bytes.now pc }
    {
        element(self.bytes, self.sizes.places.write_counts, pc)
    }

    // How many ranges the instruction at pc takes: none where the effect visitor erred.
    pub fn ranges_of(&self, pc: usize) -> u16
        requires { pc < self.now.sizes.code_count }
        ensures { result ≡ ranges_of self.now.bytes.now pc }
    {
        let count = self.write_count(pc);
        if count == 65535 { 0 } else { count }
    }

    // The first slot of write range i.
    pub fn range_start(&self, i: usize) -> u16
        requires { i < self.now.sizes.range_count }
        ensures { result ≡ range_start self.now.bytes.now i }
    {
        element(self.bytes, self.sizes.places.range_starts, i)
    }

    // How many slots write range i has.
    pub fn range_length(&self, i: usize) -> u32
        requires { i < self.now.sizes.range_count }
        ensures { result ≡ range_length self.now.bytes.now i }
    {
        element(self.bytes, self.sizes.places.range_lengths, i)
    }
}

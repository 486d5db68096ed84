// Signed offsets of 16 and 32 bits, and where they lead from an instruction.
ghost use Rattle.std.specs.Prelude.{◌≡◌, ◌≤◌, pos, ◌+ℤ◌};
ghost use Rattle.model.specs.Successors.{signed, imm32};

use model::Instruction;

// "imm32 is b + 65,536 × c read as signed 32-bit."
pub fn imm32(inst: Instruction) -> i32
    ensures { result ≡ imm32 inst }
{
    let bits = inst.b as u32 + 65536 * inst.c as u32;
    bits.cast_signed()
}

// "with c signed"
pub fn signed_c(inst: Instruction) -> i32
    ensures { result ≡ signed 16 inst.c }
{
    i32::from(inst.c.cast_signed())
}

// "pc + imm32", "pc + 1 + c": where an offset leads.
pub fn target_i64(from: usize, offset: i32) -> i64
    requires { from ≤ 4096 }
    ensures { result ≡ pos from +ℤ offset }
{
    from as i64 + i64::from(offset)
}

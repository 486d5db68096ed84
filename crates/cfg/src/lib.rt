// "Successors": what `FunctionCfg::build` finds for one instruction.
#![tactic(auto)]

mod offsets;

ghost use Rattle.std.specs.Prelude.{◌≡◌, List, ℕ, ◌<◌, ◌≤◌};
ghost use Rattle.model.specs.Successors.{branch, push, push_valid, push_fallthrough, successors, as_record};

use model::{Instruction, InstructionSuccessors};
pub use offsets::imm32;
use offsets::{signed_c, target_i64};

// "Opcodes (decimal)": numbers and no enum, since an opcode is one byte of the script, and every byte stands for some instruction.
const JUMP: u8 = 57;

const JUMP_IF: u8 = 58;

const JUMP_IF_NOT: u8 = 59;

const RETURN: u8 = 64;

const PANIC: u8 = 111;

const FOR_LOOP: u8 = 124;

// One more successor, unless it is one already: "an equal second one too" is dropped.
// Room for it is asked by three private functions. A type for a record that has room would be a second one beside document 01's, and no plainer.
fn push(successors: InstructionSuccessors, pc: usize) -> InstructionSuccessors
    requires { successors.len < 2 }
    ensures { (targets : List ℕ) → successors ≡ as_record targets → result ≡ as_record (push targets pc) }
{
    if successors.len == 1 && pc == successors.pcs[0] {
        return successors;
    }
    successors.with(pc)
}

// "Targets outside 0..n−1 are dropped"
fn push_valid_successor(
    n: usize,
    successors: InstructionSuccessors,
    target: i64,
) -> InstructionSuccessors
    requires { successors.len < 2 }
    ensures { (targets : List ℕ) → successors ≡ as_record targets → result ≡ as_record (push_valid n targets target) }
{
    match usize::try_from(target) {
        Ok(pc) if pc < n => push(successors, pc),
        _ => successors,
    }
}

// "fall through"
fn push_fallthrough_successor(
    n: usize,
    pc: usize,
    successors: InstructionSuccessors,
) -> InstructionSuccessors
    requires { (successors.len < 2) × (pc < 4096) }
    ensures { (targets : List ℕ) → successors ≡ as_record targets → result ≡ as_record (push_fallthrough n pc targets) }
{
    let next = pc + 1;
    if next < n {
        push(successors, next)
    } else {
        successors
    }
}

// "Jump", "JumpIf and JumpIfNot", "ForLoop"; "Return and Panic have none"; "others only fall through".
// The successors in order, for an instruction of a code of n.
// The limit of n is asked, so that no place wraps: callers have n from a Sheet, and a type for one bounded number would be no plainer.
pub fn instruction_successors(n: usize, pc: usize, inst: Instruction) -> InstructionSuccessors
    requires { (n ≤ 4096) × (pc < n) }
    ensures { result ≡ as_record (successors n pc inst) }
{
    let none = InstructionSuccessors::NONE;
    let next = push_fallthrough_successor(n, pc, none);
    match inst.op {
        JUMP => push_valid_successor(n, none, target_i64(pc, imm32(inst))),
        JUMP_IF | JUMP_IF_NOT => push_valid_successor(n, next, target_i64(pc, imm32(inst))),
        FOR_LOOP => push_valid_successor(n, next, target_i64(pc + 1, signed_c(inst))),
        RETURN | PANIC => none,
        _ => next,
    }
}

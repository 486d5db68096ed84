// The edges of one instruction, by its opcode.
ghost use Rattle.std.specs.Prelude.{◌≡◌, ◌+◌, ◌-◌, ◌≤◌, min, length};
ghost use Rattle.model.specs.Dependencies.{depends, copy_work, instruction_edges};
ghost use Rattle.closure_edges.specs.Rows.{dependence};

use crate::Dependence;
use model::Instruction;

// "Opcodes (decimal)". They stay bytes: a sheet may hold any, and an enum of these five needs one more variant for all the others.
const COPY: u8 = 3;

pub const COPY_N: u8 = 4;

const OR: u8 = 49;

const SHL: u8 = 53;

const MAP_ITER_INIT: u8 = 94;

// "A dependency mask has bit 0 constant, bit 1 index, bit 2 container.": bits and no enum, since several analyses may follow an edge.
pub const CONSTANT: u8 = 1 << 0;

pub const INDEX_CHECK: u8 = 1 << 1;

pub const CONTAINER: u8 = 1 << 2;

const COPY_DEPENDENCIES: u8 = CONSTANT | INDEX_CHECK | CONTAINER;

// How an instruction's slots depend on others. "CopyN's count is c."
pub fn dependence_of(inst: Instruction) -> Dependence
    ensures { result ≡ dependence inst }
{
    match inst.op {
        COPY => Dependence {
            span: 1,
            fold: false,
            kinds: COPY_DEPENDENCIES,
        },
        COPY_N => Dependence {
            span: inst.c,
            fold: false,
            kinds: COPY_DEPENDENCIES,
        },
        SHL | OR => Dependence {
            span: 1,
            fold: true,
            kinds: CONSTANT,
        },
        MAP_ITER_INIT => Dependence {
            span: 1,
            fold: false,
            kinds: CONTAINER,
        },
        _ => Dependence {
            span: 0,
            fold: false,
            kinds: 0,
        },
    }
}

// The work of a CopyN is its whole count.
pub fn copy_work(inst: Instruction) -> u64
    ensures { result ≡ copy_work (depends inst.op) inst }
{
    if inst.op == COPY_N { inst.c as u64 } else { 0 }
}

// How many edges of a row have both ends below l.
fn row_length(l: usize, a: u16, b: u16, span: u16) -> u64
    ensures { (result ≡ min span (min (l - a) (l - b))) × (result ≤ 65535) }
{
    let to = l.saturating_sub(a as usize);
    let from = l.saturating_sub(b as usize);
    (span as usize).min(to.min(from)) as u64
}

// How many edges an instruction has.
pub fn edge_count(inst: Instruction, l: usize) -> u64
    ensures { result ≡ length (instruction_edges l inst) }
{
    let rule = dependence_of(inst);
    let first = row_length(l, inst.a, inst.b, rule.span);
    if rule.fold {
        return first + row_length(l, inst.a, inst.c, rule.span);
    }
    first
}

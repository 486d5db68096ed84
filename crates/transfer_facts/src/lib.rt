// "Transfers": what the slots that an instruction writes become, in each analysis. A fact's kind is a number, as it lies in the lent tables.
// `effect_of` has told CopyN apart: that an instruction is none is asked of what it calls, and a type for such an instruction would be made for one call, and
// be no plainer.
#![tactic(auto)]

mod constants;
mod containers;
mod effects;
mod index;

pub use constants::constant_fact_written_to_slot;
pub use containers::{container_fact_written_to_slot, iter_next_cell};
pub use effects::{effect_of, effect_on_slot};
use model::FactCell;

// "Opcodes (decimal)": numbers, since an instruction may hold any byte.
const LOAD_INT: u8 = 1;

const LOAD_CONST: u8 = 2;

const COPY: u8 = 3;

const OR: u8 = 49;

const SHL: u8 = 53;

const MAP_ITER_INIT: u8 = 94;

// What the slots that an instruction writes become, as far as it can be found before any slot is asked: the slots of a range become one
// fact, or the facts of as many slots from another on; "any other written slot becomes Unknown".
#[derive(Clone, Copy)]
pub enum Effect {
    Filled {
        start: u16,
        count: u16,
        cell: FactCell,
    },
    Copied {
        start: u16,
        count: u16,
        from: u16,
    },
}

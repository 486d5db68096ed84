// "for index, the ended constant run": what each IndexCheck makes of its fact of b, found once, before the index run.
// "Order: flow graph, dependencies, constants, index, containers.": the three analyses one after the other, as laws, and their answer.
#![tactic(auto)]

mod facts;
mod order;
mod tables;

pub use order::{answer_of, counts_unless};
pub use tables::store_lengths;

// "Opcodes (decimal)": a number, since an instruction may hold any byte.
const INDEX_CHECK: u8 = 121;

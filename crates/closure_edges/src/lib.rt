// "Order: flow graph, dependencies, ..": the edges of one instruction, and what the flow graph and the dependencies cost.
// `FactDependencyGraph` without a heap: the instructions that have edges, in a chain for each bucket of destinations, found once a
// closure. A slot that is taken then costs the instructions of its bucket alone.
#![tactic(auto)]

ghost use Rattle.std.specs.Prelude.{◌≡◌, ◌≤◌, length};

mod charges;
mod destinations;
mod edges;
mod links;

pub use charges::charge_graph;
pub use destinations::bucket_of;
pub use edges::{CONSTANT, CONTAINER, COPY_N, INDEX_CHECK, dependence_of};

// How the slots that an instruction sets depend on others: slot a + i on b + i for i below span, and with fold on c + i too, in the
// analyses of the mask.
#[derive(Clone, Copy)]
pub struct Dependence {
    pub span: u16,
    // not an Option: the second source begins at the instruction's own c, which a value here would only repeat
    pub fold: bool,
    pub kinds: u8,
}

// Buckets that follow each other.
#[derive(Clone, Copy)]
pub struct Buckets {
    pub first: usize,
    pub count: usize,
}

// One link of a chain: an instruction, and the number of the link before it in its bucket, or 0. The first link is number 1.
#[derive(Clone, Copy)]
pub struct Link {
    pub pc: u16,
    pub next: u16,
}

// Links name each other by number, and 0 names none: there is no heap, and an `Option` of a number takes twice the room in fixed tables.
// The instructions from `first` on, in a chain for each bucket of the slots that their edges may lead to: of each bucket the number of
// its newest link, or 0, and the links, of which `used` are made.
#[derive(Drop)]
pub struct Chains<'a> {
    heads: &'a mut [u16],
    links: &'a mut [Link],
    used: usize,
    pub first: usize,
    ghost wide: { length heads.now ≡ 2048 },
    ghost few: { length links.now ≤ 65535 },
    ghost room: { used ≤ length links.now },
}

// What the calls of a recorded sheet are lent, and the checksum of what they answer and leave. oracle/README.md describes both.
#![tactic(auto)]

mod element;
mod lengths;
mod resources;
mod rooms;
mod sums;

pub use element::Element;
pub use resources::budget_of;
pub use rooms::front;

// Two polynomials over all numbers so far, modulo two primes.
#[derive(Clone, Copy, Debug, PartialEq, Eq)]
pub struct Checksum {
    pub low: u32,
    pub high: u32,
}

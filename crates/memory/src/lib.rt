// Clearing of lent memory, and the laws of loops that write a list from its front, for any element (proofs/StoreLoops).
#![tactic(auto)]

mod rows;

ghost use Rattle.std.specs.Prelude.{◌≡◌, List, length, replicate};
ghost use Rattle.model.specs.Call.{zeros};
ghost use Rattle.memory.specs.Zeros.{zeros_replicate};

pub use rows::{clear_row, clear_rows};

// A number that lent memory is made of.
pub trait Zero: Copy {
    ghost zero: { Self };

    // "all zero"
    ghost zeros: { List Self → List Self };

    // What each impl must prove.
    ghost zeros_are: { (old : List Self) → replicate (length old) zero ≡ zeros old };

    fn zero() -> Self
        ensures { result ≡ zero };

    // A copy never fails, and is what it was made from.
    ghost copies: { (x : Self) → Self.Clone.is_infallible x };

    ghost copied: { (x y : Self) → Self.Clone.is_clone x y → y ≡ x };
}

impl Zero for u8 {
    ghost zero = { 0 };

    ghost zeros = { zeros };

    ghost zeros_are = { zeros_replicate };

    ghost copies = { λ x. tt };

    ghost copied = { λ x y e. e };

    fn zero() -> u8 {
        0u8
    }
}

impl Zero for u16 {
    ghost zero = { 0 };

    ghost zeros = { zeros };

    ghost zeros_are = { zeros_replicate };

    ghost copies = { λ x. tt };

    ghost copied = { λ x y e. e };

    fn zero() -> u16 {
        0u16
    }
}

impl Zero for u64 {
    ghost zero = { 0 };

    ghost zeros = { zeros };

    ghost zeros_are = { zeros_replicate };

    ghost copies = { λ x. tt };

    ghost copied = { λ x y e. e };

    fn zero() -> u64 {
        0u64
    }
}

// Every element becomes zero.
pub fn clear<T: Zero>(out: &mut [T])
    ensures { out.new ≡ T.zeros out.old }
{
    out.fill(T::zero());
}

// The elements of from, in as many places. A loop and not `copy_from_slice`, which calls memmove: four short copies a step would take longer than
// the rest of it.
pub fn copy<T: Zero>(from: &[T], to: &mut [T])
    requires { length from.now ≡ length to.old }
    ensures { to.new ≡ from.now }
{
    for i in 0..to.len() {
        to[i] = from[i];
    }
}

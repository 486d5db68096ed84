// All calls of a recorded sheet.
ghost use Rattle.std.specs.Prelude.{◌≡◌};
ghost use Rattle.std.proofs.Math.Option.{some};
ghost use Rattle.check_replay.specs.Calls.{replayed};

use crate::call::{Called, call};
use check_replay_lent::Checksum;

// How many calls follow the first: one with longer buffers, and one for each of the 17.
const MORE: usize = 18;

// The answer of the first call, and the checksum over all of them.
pub fn replay(head: &[u8; 88], sheet: &[u8]) -> Called
    ensures { some result ≡ replayed head.now sheet.now 18 }
{
    let mut called = call(head, sheet, 0, Checksum::START);
    for i in 0..MORE {
        called.checksum = call(head, sheet, i + 1, called.checksum).checksum;
    }
    called
}

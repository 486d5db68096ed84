// The front of a room, as long as a call of the recorded sheet lends the buffer, and filled with the pattern: a byte from 1 to 128, by the place, as often as an
// element has bytes. Where there is too little room all of it is lent, and the line differs.
ghost use Rattle.std.specs.Prelude.{◌≡◌, ◌<◌, ◌≤◌, length};
ghost use Rattle.check_replay_lent.specs.Lengths.{lent_length};

use crate::element::Element;
use crate::lengths::lent_length;

pub fn front<'a, T: Element>(
    room: &'a mut [T],
    size: usize,
    head: &[u8; 88],
    call: usize,
    which: usize,
) -> &'a mut [T]
    requires { (size ≤ length room.old) × (which < 17) }
    ensures { result.now ≡ T.pattern (lent_length head.now call which size) }
{
    let end = lent_length(head, call, which, size);
    for i in 0..end {
        room[i] = T::repeated((i % 128 + 1) as u8);
    }
    &mut room[..end]
}

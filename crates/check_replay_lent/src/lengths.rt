// The lengths of the 17 buffers, in the order of the call's parameters: slots, present, kinds and values of each analysis; marks, stack, row kinds,
// row values, work list. The head of a recorded sheet says how long each must be, and each of its calls changes that in another way.
ghost use Rattle.std.specs.Prelude.{◌≡◌, ◌+◌, ◌<◌, ◌≤◌, eqb};
ghost use Rattle.check_replay_lent.specs.Lengths.{changed, lent_length};

use sheet::element;

// Call 0 lends what is needed. Call 1 lends longer buffers. Call 2 + which has that one short by one, or longer by one where nothing is needed.
// Which buffer is a number below 17, and no enum: it is added to the length, compared with the call's number, and the place of the length in the head.
#[tactic(auto, unfolding(crate::specs::Lengths::changed))]
fn changed_length(call: usize, which: usize, count: usize) -> usize
    requires { (which < 17) × (count < 4294967296) }
    ensures { result ≡ changed (eqb call 1) (eqb call (which + 2)) which count }
{
    if call == 1 {
        return count + which + 1;
    }
    if call != which + 2 {
        return count;
    }
    if count == 0 {
        return 1;
    }
    count - 1
}

// The length of a buffer in a call, at most as long as there is room.
#[tactic(auto, unfolding(crate::specs::Lengths::lent_length))]
pub fn lent_length(head: &[u8; 88], call: usize, which: usize, room: usize) -> usize
    requires { which < 17 }
    ensures { (result ≤ room) × (result ≡ lent_length head.now call which room) }
{
    let needed = element::<u32>(head, 20, which) as usize;
    changed_length(call, which, needed).min(room)
}

// The numbers of what a lookup answers. C has no Result and no Option, so the interface has a number for each case.
ghost use Rattle.std.specs.Prelude.{◌≡◌, leb, length};
ghost use Rattle.model.specs.Interface.{looked, looked_up, reached_number};

use model::{Reachability, SlotFact};

// "none"
const NONE: u8 = 254;

// The memory for the fact has fewer than two entries.
const TOO_SHORT: u8 = 255;

// Question 9 refuses.
const DAMAGED: u8 = 9;

// 0 with the cell's kind and value at the front of out, 254 for "none", 9; 255 where out has fewer than 2 entries. But for 0, out keeps its
// content.
pub fn put_slot_fact(fact: SlotFact, out: &mut [u64]) -> u8
    ensures { looked result out.new ≡ looked_up (leb 2 (length out.old)) fact out.old }
{
    if out.len() < 2 {
        return TOO_SHORT;
    }
    let Ok(found) = fact else {
        return DAMAGED;
    };
    let Some(cell) = found else {
        return NONE;
    };
    out[0] = cell.kind as u64;
    out[1] = cell.value;
    0
}

// "yes for byte 1, no for 0 or pc from n up, 9 for another byte"
#[tactic(auto, unfolding(model::specs::Interface::interface_compute))]
pub fn reached(answer: Reachability) -> u8
    ensures { result ≡ reached_number answer }
{
    match answer {
        Ok(true) => 1,
        Ok(false) => 0,
        Err(_) => DAMAGED,
    }
}

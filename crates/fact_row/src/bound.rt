// Where a slot stands among the tracked ones, which ascend: by halves, as in the Rust.
ghost use Rattle.std.specs.Prelude.{◌≡◌, true, cond, ◌+◌, ◌<◌, ltb};
ghost use Rattle.model.specs.Lookup.{ascends, place};
ghost use Rattle.fact_row.specs.Place.{placed};
ghost use Rattle.fact_row.specs.Rows.{Bound};

// Which half to go on with: a product with 0 or 1, so that no branch is compiled. The search is by hand for it: std's `partition_point`, which was tried
// and proved, takes 1.11 to 1.13 times as long on CopyN chains with 512 slots, and 1.26 at worst (many write ranges, n 1,024, s 8).
#[tactic(auto, using(crate::proofs::Ascending::times_le, crate::proofs::Ascending::half_stepped))]
fn half_of(slot: usize, t: usize, base: usize, half: usize) -> usize
    requires { base + half < 9223372036854775808 }
    ensures { result ≡ cond (ltb slot t) base (base + half) }
{
    let up = (t <= slot) as usize;
    base + half * up
}

// How many of the slots lie below the given one.
// That they ascend is asked of the slice, here and of `find`: the structs of a row carry it as a ghost field, and `Tables`, lent with any slots, asks it
// by itself before. A struct around the slice would be made for each call, and be no plainer.
pub fn lower_bound(slots: &[u16], slot: usize) -> usize
    requires { ascends slots.now ≡ true }
    ensures { Bound slots.now slot result }
{
    if slots.is_empty() {
        return 0;
    }
    let mut base = 0;
    let mut size = slots.len();
    while 1 < size {
        let half = size / 2;
        let mid = base + half;
        base = half_of(slot, usize::from(slots[mid]), base, half);
        size -= half;
    }
    if usize::from(slots[base]) < slot {
        base + 1
    } else {
        base
    }
}

// The place of a slot. No slot from 65,536 up is tracked.
pub fn find(slots: &[u16], slot: usize) -> Option<usize>
    requires { ascends slots.now ≡ true }
    ensures { placed result ≡ place slots.now slot }
{
    let at = lower_bound(slots, slot);
    if at < slots.len() && usize::from(slots[at]) == slot {
        Some(at)
    } else {
        None
    }
}

// Buckets of slots.
ghost use Rattle.std.specs.Prelude.{◌≡◌, ◌+◌, ◌<◌, ◌≤◌, min};
ghost use Rattle.closure_edges.specs.Links.{bucket, buckets_of};

use crate::Buckets;
use crate::edges::dependence_of;
use model::Instruction;

// The bucket of a slot: its own below 1,024, where scripts have most of theirs, else one that it shares with 63 others.
// A slot is a usize with its bound asked, and no u16: its callers compute with it, and would cast it for this call.
#[tactic(auto, unfolding(crate::specs::Links::bucket, crate::specs::Links::bucket_if))]
pub fn bucket_of(slot: usize) -> usize
    requires { slot < 65536 }
    ensures { (result ≡ bucket slot) × (result < 2048) }
{
    if slot < 1024 {
        return slot;
    }
    1008 + slot / 64
}

// The buckets that an instruction's edges may lead to.
// The limit of l is asked: the caller has l from a Sheet, and a type for one bounded number would be no plainer.
pub fn buckets_of(inst: Instruction, l: usize) -> Buckets
    requires { l ≤ 65535 }
    ensures { (result ≡ buckets_of l inst) × (result.first + result.count ≤ 2048) }
{
    let a = inst.a as usize;
    let end = (a + dependence_of(inst).span as usize).min(l);
    if a < end {
        let first = bucket_of(a);
        let last = bucket_of(end - 1);
        return Buckets {
            first,
            count: last + 1 - first,
        };
    }
    Buckets { first: 0, count: 0 }
}

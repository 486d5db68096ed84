// The chains, built from the last instruction to the first, so that each begins with its first one.
ghost use Rattle.std.specs.Prelude.{◌≡◌, ◌+◌, ◌-◌, ◌<◌, ◌≤◌, length, get_or};
ghost use Rattle.closure_edges.specs.Links.{bucket, link_at, link_each, links_of, graph_in, graph_of};

use crate::destinations::{bucket_of, buckets_of};
use crate::{Buckets, Chains, Link};
use memory::clear;
use sheet_fields::Sheet;

impl<'a> Chains<'a> {
    // Chains of all instructions, or where there is room for fewer links, of the last ones.
    pub fn build(sheet: &Sheet, heads: &'a mut [u16], links: &'a mut [Link]) -> Chains<'a>
        requires { (length heads.old ≡ 2048) × (length links.old ≤ 65535) }
        ensures graph { graph_in result ≡ graph_of sheet.now.bytes.now heads.old links.old }
        ensures same_heads { result.heads.ghost_name ≡ heads.entry.ghost_name }
        ensures same_links { result.links.ghost_name ≡ links.entry.ghost_name }
    {
        clear(heads);
        let sheet = *sheet;
        let mut chains = Chains {
            heads,
            links,
            used: 0,
            first: sheet.sizes.code_count,
        };
        for pc in (0..sheet.sizes.code_count).rev() {
            let buckets = buckets_of(sheet.instruction(pc), sheet.sizes.local_slots);
            if chains.links.len() - chains.used < buckets.count {
                return chains;
            }
            chains.link_each(buckets, pc);
        }
        chains
    }

    // A link to the instruction from each of the buckets.
    fn link_each(&mut self, buckets: Buckets, pc: usize)
        requires { (buckets.first + buckets.count ≤ 2048) × (self.old.used + buckets.count ≤ length self.old.links.now) × (pc ≤ 65535) }
        ensures linked { links_of self.new ≡ link_each pc buckets.first buckets.count (links_of self.old) }
        ensures first { self.new.first ≡ pc }
        ensures same_heads { self.new.heads.ghost_name ≡ self.old.heads.ghost_name }
        ensures same_links { self.new.links.ghost_name ≡ self.old.links.ghost_name }
    {
        for i in 0..buckets.count {
            let k = buckets.first + i;
            self.links[self.used] = Link {
                pc: pc as u16,
                next: self.heads[k],
            };
            self.used += 1;
            self.heads[k] = self.used as u16;
        }
        self.first = pc;
    }

    // The number of the newest link of a slot's bucket, or 0, as the `next` of a link has it.
    pub fn newest(&self, slot: usize) -> usize
        requires { slot < 65536 }
        ensures { result ≡ get_or self.now.heads.now (bucket slot) 0 }
    {
        self.heads[bucket_of(slot)] as usize
    }

    // The link of a number.
    pub fn link(&self, number: usize) -> Link
        requires { (0 < number) × (number ≤ length self.now.links.now) }
        ensures { result ≡ link_at self.now.links.now (number - 1) }
    {
        self.links[number - 1]
    }
}

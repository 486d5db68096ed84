// The edges to one slot, counted and followed in one pass over the instructions that may have them.
ghost use Rattle.std.specs.Prelude.{◌≡◌, ◌+◌, ◌*◌, ◌<◌, ◌≤◌, ◌&&◌, ◌++◌, IfSome, nat_lt};
ghost use Rattle.model.specs.Dependencies.{dependency_bit, instruction_edges, edges_into, edges_to};
ghost use Rattle.closure_marks.specs.Marks.{slots_in};
ghost use Rattle.model.specs.Count.{collect};
ghost use Rattle.closure_edges.specs.Chain.{edges_at, Tells};
ghost use Rattle.closure_edges.specs.Rows.{dependence};
ghost use Rattle.closure.specs.Sources.{edges_in, only_if, Follows};

use closure_edges::{CONSTANT, CONTAINER, COPY_N, Chains, INDEX_CHECK, dependence_of};
use closure_marks::{Candidates, SlotMarks};
use model::{AnalysisKind, Instruction};
use sheet_fields::Sheet;

// The edges of an instruction to one slot: their sources, and the mask of the analyses that follow them.
#[derive(Clone, Copy)]
struct SlotEdges {
    sources: Candidates,
    kinds: u8,
}

// "bit 0 constant, bit 1 index, bit 2 container"
#[tactic(auto, unfolding(model::specs::Dependencies::dependency_bit))]
fn dependency_bit(which: AnalysisKind) -> u8
    ensures { result ≡ dependency_bit which }
{
    match which {
        AnalysisKind::Constant => CONSTANT,
        AnalysisKind::IndexCheck => INDEX_CHECK,
        AnalysisKind::Container => CONTAINER,
    }
}

// The sources below l, in order: the first, and with fold the second. The flag stands beside its source, as in `Dependence`: an Option would be made
// for this one call, and taken apart in it. (One match on both tests is no jump for each test but a choice of values, in the loop of a closure: with
// thousands of CopyN that have no edges it took up to 1.7 times as long.)
fn sources_below(l: usize, first: usize, fold: bool, second: usize) -> Candidates
    ensures { slots_in result ≡ only_if (nat_lt first l) first ++ only_if (fold && nat_lt second l) second }
{
    if fold & (second < l) {
        if first < l {
            return Candidates::Two(first, second);
        }
        return Candidates::One(second);
    }
    if first < l {
        Candidates::One(first)
    } else {
        Candidates::None
    }
}

// The edges of one instruction to slot d. A CopyN has one where a ≤ d < a + c and the source is below L, in whole numbers.
// The limit of l is asked, here and below: it is a Sheet's, read once before the loop, and a type for one bounded number would be no plainer.
fn edges_to(inst: Instruction, l: usize, d: usize) -> SlotEdges
    requires { (d < l) × (l ≤ 65535) }
    ensures { edges_in d result ≡ edges_into d (instruction_edges l inst) }
{
    let rule = dependence_of(inst);
    let kinds = rule.kinds;
    let a = inst.a as usize;
    if d < a || rule.span as usize <= d - a {
        return SlotEdges {
            sources: Candidates::None,
            kinds,
        };
    }
    let i = d - a;
    let sources = sources_below(l, inst.b as usize + i, rule.fold, inst.c as usize + i);
    SlotEdges { sources, kinds }
}

// To how many slots, beginning with a, an instruction's edges lead at most.
fn reach(inst: Instruction) -> usize
    ensures { (result ≤ 65535) × ((dependence inst).span ≤ result) }
{
    if inst.op == COPY_N {
        inst.c as usize
    } else {
        1
    }
}

// One instruction's edges to d: every one is counted, and those of this analysis's bit are followed.
fn follow_instruction(inst: Instruction, bit: u8, l: usize, d: usize, marked: &mut SlotMarks) -> u64
    requires { (d < l) × (l ≤ 65535) }
    ensures { (result ≤ 255) × Follows bit (edges_into d (instruction_edges l inst)) marked.old marked.new result }
{
    let a = inst.a as usize;
    // most instructions are passed over by this test alone: below a the difference wraps and is larger than any reach
    if reach(inst) <= std::num::wrapping_sub_usize(d, a) {
        return 0;
    }
    let edges = edges_to(inst, l, d);
    let sources = edges.sources;
    let count = sources.count();
    // Where no edge leads to d, nothing below changes anything. It ends here all the same: sources and mask would be carried on, and thousands of CopyN
    // that have no edges took 1.3 times as long.
    if count == 0 {
        return 0;
    }
    if edges.kinds & bit == 0 {
        return count;
    }
    marked.mark_all(sources);
    count
}

// The edges to d of the instructions below end, in code order.
fn follow_code(bit: u8, sheet: &Sheet, end: usize, d: usize, marked: &mut SlotMarks) -> u64
    requires { (end ≤ sheet.now.sizes.code_count) × (d < sheet.now.sizes.local_slots) }
    ensures { (result ≤ end * 255) × Follows bit (collect (edges_at sheet.now.bytes.now d) end) marked.old marked.new result }
{
    let l = sheet.sizes.local_slots;
    let mut count = 0;
    for pc in 0..end {
        count += follow_instruction(sheet.instruction(pc), bit, l, d, marked);
    }
    count
}

// All edges to d, in code order: how many there are. The instructions that are in the chains have theirs in the chain of d's bucket; the
// others are read one after the other.
pub fn follow_edges(
    which: AnalysisKind,
    sheet: &Sheet,
    chains: Option<&Chains>,
    d: usize,
    marked: &mut SlotMarks,
) -> u64
    requires { IfSome chains (λ c. Tells sheet.now.bytes.now c.now) × (d < sheet.now.sizes.local_slots) }
    ensures { Follows (dependency_bit which) (edges_to sheet.now.bytes.now d) marked.old marked.new result }
{
    let l = sheet.sizes.local_slots;
    let bit = dependency_bit(which);
    let Some(chains) = chains else {
        return follow_code(bit, sheet, sheet.sizes.code_count, d, marked);
    };
    let mut count = follow_code(bit, sheet, chains.first, d, marked);
    let mut number = chains.newest(d);
    // a chain ends where a link names none: there is no count that a `for` could run to
    while 0 < number {
        let link = chains.link(number);
        let inst = sheet.instruction(link.pc as usize);
        count += follow_instruction(inst, bit, l, d, marked);
        number = link.next as usize;
    }
    count
}

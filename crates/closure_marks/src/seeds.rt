// "Seeds as in `tracked_constant_slots`, `tracked_index_check_slots`, `tracked_container_slots`": the seeds of an analysis, marked.
ghost use Rattle.std.specs.Prelude.{◌≡◌, map};
ghost use Rattle.model.specs.Sheet.{code_count};
ghost use Rattle.model.specs.Dependencies.{field, seed_fields};
ghost use Rattle.model.specs.Closure.{mark_seeds};
ghost use Rattle.closure_marks.specs.Marks.{Steps, slots_in, held, store_seeds};
ghost use Rattle.closure_marks.specs.Fields.{fields_in};

use crate::mark::SlotMarks;
use crate::{Candidates, Fields};
use model::{AnalysisKind, Instruction};
use sheet_fields::Sheet;

// (The opcodes stay numbers: any byte may come, and the names stand above the numbers, so an enum would only list them a second time.)
// `tracked_constant_slots`: MapNew; ArrayNew, SliceNew, PtrNew, QueueNew, IndexCheck; SliceAppend.
fn constant_fields(op: u8) -> Fields
    ensures { fields_in result ≡ seed_fields AnalysisKind.Constant op }
{
    match op {
        89 => Fields::BAndNext,
        77 | 81 | 13 | 96 | 121 => Fields::B,
        87 => Fields::C,
        _ => Fields::None,
    }
}

// `tracked_index_check_slots`: SlotGet, SlotGetN; SlotSet, SlotSetN.
fn index_fields(op: u8) -> Fields
    ensures { fields_in result ≡ seed_fields AnalysisKind.IndexCheck op }
{
    match op {
        5 | 7 => Fields::C,
        6 | 8 => Fields::B,
        _ => Fields::None,
    }
}

// `tracked_container_slots`: MapNew, MapSet, QueueNew, QueueClose, SelectSend, MapDelete, QueueSend; MapIterInit; MapGet, MapLen,
// MapIterNext, QueueRecv, QueueLen, SelectRecv, QueueCap. (Neighbours stand in two arms: in one they would be tested as a range.)
fn container_fields(op: u8) -> Fields
    ensures { fields_in result ≡ seed_fields AnalysisKind.Container op }
{
    match op {
        89 | 91 | 96 | 99 | 103 => Fields::A,
        92 | 97 => Fields::A,
        94 => Fields::AAndB,
        90 | 93 | 95 | 98 | 100 | 104 => Fields::B,
        101 => Fields::B,
        _ => Fields::None,
    }
}

fn fields_of(which: AnalysisKind, op: u8) -> Fields
    ensures { fields_in result ≡ seed_fields which op }
{
    match which {
        AnalysisKind::Constant => constant_fields(op),
        AnalysisKind::IndexCheck => index_fields(op),
        AnalysisKind::Container => container_fields(op),
    }
}

// The seeds of an instruction, in the order of the Rust. b + 1 may be 65,536, which is from L up.
fn seed_fields(which: AnalysisKind, inst: Instruction) -> Candidates
    ensures { slots_in result ≡ map (field inst) (seed_fields which inst.op) }
{
    let a = inst.a as usize;
    let b = inst.b as usize;
    let c = inst.c as usize;
    match fields_of(which, inst.op) {
        Fields::None => Candidates::None,
        Fields::A => Candidates::One(a),
        Fields::B => Candidates::One(b),
        Fields::C => Candidates::One(c),
        Fields::BAndNext => Candidates::Two(b, b + 1),
        Fields::AAndB => Candidates::Two(a, b),
    }
}

// The seeds of all instructions, in code order.
pub fn seed_slots(which: AnalysisKind, sheet: &Sheet, marked: &mut SlotMarks)
    ensures steps { Steps (mark_seeds which sheet.now.bytes.now (code_count sheet.now.bytes.now)) marked.old marked.new }
    ensures stored { held marked.new ≡ store_seeds which sheet.now.bytes.now (code_count sheet.now.bytes.now) (held marked.old) }
{
    let sheet = *sheet;
    for pc in 0..sheet.sizes.code_count {
        let seeds = seed_fields(which, sheet.instruction(pc));
        marked.mark_all(seeds);
    }
}

// The C interface, which include/vo_facts.h declares: thin functions over `analyze` and the lookups. What C is handed are numbers: document 01's
// own, 254 for "none", 255 where the memory for the answer is too short.
#![tactic(auto)]

mod loading;

ghost use Rattle.std.specs.Prelude.{◌≡◌, leb, length};
ghost use Rattle.std.proofs.Math.Option.{some};
ghost use Rattle.model.specs.Lookup.{fact_for_slot, is_reachable, fixed};
ghost use Rattle.model.specs.declared.AnalysisKind.TheVariants.{Constant, IndexCheck, Container};
ghost use Rattle.model.specs.Promise.{lent_table, lent_scratch, lent_call};
ghost use Rattle.model.specs.Interface.{exported, exported_of, looked, looked_up, reached_number};

use export_numbers::{put_answer, put_slot_fact, reached};
use lookup::{Tables, is_reachable};
use model::{AnalysisKind, VerifierResources};
use stage_memory::{LentScratch, LentTable};
use verifier::analyze;

// The functions that C calls keep their names, their parameters one by one, and their answers as numbers: C has no struct of slices, no enum with values
// and no Result.

// What C is told: the memory for the answer is too short.
const TOO_SHORT: u8 = 255;

// 0, or the number of the first question that refuses; the first 12 entries of answer hold the answer's numbers. 255 where it has fewer: nothing
// lent changes then. The result, what is lent and answer are those of the call that the definitions give (`exported_of`).
#[unsafe(no_mangle)]
pub extern "C" fn vo_facts_analyze(
    sheet: &[u8],
    bytes: u64,
    work: u64,
    constant_slots: &mut [u16],
    constant_present: &mut [u8],
    constant_kinds: &mut [u8],
    constant_values: &mut [u64],
    index_slots: &mut [u16],
    index_present: &mut [u8],
    index_kinds: &mut [u8],
    index_values: &mut [u64],
    container_slots: &mut [u16],
    container_present: &mut [u8],
    container_kinds: &mut [u8],
    container_values: &mut [u64],
    marks: &mut [u8],
    stack: &mut [u16],
    row_kinds: &mut [u8],
    row_values: &mut [u64],
    work_list: &mut [u16],
    answer: &mut [u64],
) -> u8
    ensures { let l = lent_call
        (lent_table constant_slots constant_present constant_kinds constant_values)
        (lent_table index_slots index_present index_kinds index_values)
        (lent_table container_slots container_present container_kinds container_values)
        (lent_scratch marks stack row_kinds row_values work_list) in
        some (exported result l.exit answer.new)
        ≡ exported_of (leb 12 (length answer.old)) sheet.now (record { bytes = bytes; work = work }) l.entry answer.old }
{
    if answer.len() < 12 {
        return TOO_SHORT;
    }
    let mut constants = LentTable {
        slots: constant_slots,
        present: constant_present,
        kinds: constant_kinds,
        values: constant_values,
    };
    let mut index = LentTable {
        slots: index_slots,
        present: index_present,
        kinds: index_kinds,
        values: index_values,
    };
    let mut containers = LentTable {
        slots: container_slots,
        present: container_present,
        kinds: container_kinds,
        values: container_values,
    };
    let mut scratch = LentScratch {
        marks,
        stack,
        row_kinds,
        row_values,
        work_list,
    };
    let ended = analyze(
        sheet,
        VerifierResources { bytes, work },
        &mut constants,
        &mut index,
        &mut containers,
        &mut scratch,
    );
    put_answer(ended, answer)
}

// What the functions of the three analyses below answer, of one of them.
fn put_analysis_fact(
    which: AnalysisKind,
    slots: &[u16],
    present: &[u8],
    kinds: &[u8],
    values: &[u64],
    pc: u64,
    slot: u16,
    out: &mut [u64],
) -> u8
    ensures { let fact = fact_for_slot which slots.now present.now kinds.now values.now pc slot in
        looked result out.new ≡ looked_up (leb 2 (length out.old)) fact out.old }
{
    let tables = Tables {
        slots,
        present,
        kinds,
        values,
    };
    let fact = tables.fact_for_slot(which, pc, slot);
    put_slot_fact(fact, out)
}

// The constant fact of a slot before instruction pc: 0 with its kind and value in out, 254, 9; 255 where out has fewer than 2 entries.
#[unsafe(no_mangle)]
pub extern "C" fn vo_facts_constant(
    slots: &[u16],
    present: &[u8],
    kinds: &[u8],
    values: &[u64],
    pc: u64,
    slot: u16,
    out: &mut [u64],
) -> u8
    ensures { let fact = fact_for_slot Constant slots.now present.now kinds.now values.now pc slot in
        looked result out.new ≡ looked_up (leb 2 (length out.old)) fact out.old }
{
    put_analysis_fact(
        AnalysisKind::Constant,
        slots,
        present,
        kinds,
        values,
        pc,
        slot,
        out,
    )
}

// The same of the index analysis.
#[unsafe(no_mangle)]
pub extern "C" fn vo_facts_index_check(
    slots: &[u16],
    present: &[u8],
    kinds: &[u8],
    values: &[u64],
    pc: u64,
    slot: u16,
    out: &mut [u64],
) -> u8
    ensures { let fact = fact_for_slot IndexCheck slots.now present.now kinds.now values.now pc slot in
        looked result out.new ≡ looked_up (leb 2 (length out.old)) fact out.old }
{
    put_analysis_fact(
        AnalysisKind::IndexCheck,
        slots,
        present,
        kinds,
        values,
        pc,
        slot,
        out,
    )
}

// The same of the container analysis.
#[unsafe(no_mangle)]
pub extern "C" fn vo_facts_container(
    slots: &[u16],
    present: &[u8],
    kinds: &[u8],
    values: &[u64],
    pc: u64,
    slot: u16,
    out: &mut [u64],
) -> u8
    ensures { let fact = fact_for_slot Container slots.now present.now kinds.now values.now pc slot in
        looked result out.new ≡ looked_up (leb 2 (length out.old)) fact out.old }
{
    put_analysis_fact(
        AnalysisKind::Container,
        slots,
        present,
        kinds,
        values,
        pc,
        slot,
        out,
    )
}

// The one known constant of a slot, in the same numbers.
#[unsafe(no_mangle)]
pub extern "C" fn vo_facts_fixed(
    slots: &[u16],
    present: &[u8],
    kinds: &[u8],
    values: &[u64],
    slot: u16,
    out: &mut [u64],
) -> u8
    ensures { let fact = fixed slots.now present.now kinds.now values.now slot in
        looked result out.new ≡ looked_up (leb 2 (length out.old)) fact out.old }
{
    let tables = Tables {
        slots,
        present,
        kinds,
        values,
    };
    let fact = tables.fixed_fact(slot);
    put_slot_fact(fact, out)
}

// 1 yes, 0 no, 9.
#[unsafe(no_mangle)]
pub extern "C" fn vo_facts_is_reachable(present: &[u8], pc: u64) -> u8
    ensures { result ≡ reached_number (is_reachable present.now pc) }
{
    reached(is_reachable(present, pc))
}

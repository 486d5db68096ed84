// One call of a recorded sheet, with every buffer as long as that call lends it, and filled.
ghost use Rattle.std.specs.Prelude.{◌≡◌};
ghost use Rattle.std.proofs.Math.Option.{some};
ghost use Rattle.check_replay.specs.Calls.{called_in};

use check_replay_lent::{Checksum, budget_of, front};
use model::Answer;
use stage_memory::{LentScratch, LentTable};
use verifier::analyze;

// Room for the recorded sheets, whose buffers are lent longer by up to 17: s up to 53, n up to 343, n × s up to 5,220, L up to 65,535, and up to 10,556
// entries of the work list.
// The rooms are arrays, since there is no heap.
const SLOTS: usize = 128;

const INSTRUCTIONS: usize = 512;

const CELLS: usize = 8192;

const LOCALS: usize = 65600;

const ENTRIES: usize = 16384;

// What a call answered, and the checksum behind it.
#[derive(Clone, Copy)]
pub struct Called {
    pub answer: Answer,
    pub checksum: Checksum,
}

// Call number `call` of a recorded sheet, whose head says what it is lent. No other function holds all 17 buffers.
pub fn call(head: &[u8; 88], sheet: &[u8], call: usize, checksum: Checksum) -> Called
    ensures { some result ≡ called_in head.now sheet.now call checksum }
{
    let mut constant_slots_room = [0u16; SLOTS];
    let constant_slots = front(&mut constant_slots_room, SLOTS, head, call, 0);
    let mut constant_present_room = [0u8; INSTRUCTIONS];
    let constant_present = front(&mut constant_present_room, INSTRUCTIONS, head, call, 1);
    let mut constant_kinds_room = [0u8; CELLS];
    let constant_kinds = front(&mut constant_kinds_room, CELLS, head, call, 2);
    let mut constant_values_room = [0u64; CELLS];
    let constant_values = front(&mut constant_values_room, CELLS, head, call, 3);
    let mut index_slots_room = [0u16; SLOTS];
    let index_slots = front(&mut index_slots_room, SLOTS, head, call, 4);
    let mut index_present_room = [0u8; INSTRUCTIONS];
    let index_present = front(&mut index_present_room, INSTRUCTIONS, head, call, 5);
    let mut index_kinds_room = [0u8; CELLS];
    let index_kinds = front(&mut index_kinds_room, CELLS, head, call, 6);
    let mut index_values_room = [0u64; CELLS];
    let index_values = front(&mut index_values_room, CELLS, head, call, 7);
    let mut container_slots_room = [0u16; SLOTS];
    let container_slots = front(&mut container_slots_room, SLOTS, head, call, 8);
    let mut container_present_room = [0u8; INSTRUCTIONS];
    let container_present = front(&mut container_present_room, INSTRUCTIONS, head, call, 9);
    let mut container_kinds_room = [0u8; CELLS];
    let container_kinds = front(&mut container_kinds_room, CELLS, head, call, 10);
    let mut container_values_room = [0u64; CELLS];
    let container_values = front(&mut container_values_room, CELLS, head, call, 11);
    let mut marks_room = [0u8; LOCALS];
    let marks = front(&mut marks_room, LOCALS, head, call, 12);
    let mut stack_room = [0u16; LOCALS];
    let stack = front(&mut stack_room, LOCALS, head, call, 13);
    let mut row_kinds_room = [0u8; SLOTS];
    let row_kinds = front(&mut row_kinds_room, SLOTS, head, call, 14);
    let mut row_values_room = [0u64; SLOTS];
    let row_values = front(&mut row_values_room, SLOTS, head, call, 15);
    let mut work_list_room = [0u16; ENTRIES];
    let work_list = front(&mut work_list_room, ENTRIES, head, call, 16);
    let mut constants = LentTable {
        slots: constant_slots,
        present: constant_present,
        kinds: constant_kinds,
        values: constant_values,
    };
    let mut index = LentTable {
        slots: index_slots,
        present: index_present,
        kinds: index_kinds,
        values: index_values,
    };
    let mut containers = LentTable {
        slots: container_slots,
        present: container_present,
        kinds: container_kinds,
        values: container_values,
    };
    let mut scratch = LentScratch {
        marks,
        stack,
        row_kinds,
        row_values,
        work_list,
    };
    let answer = analyze(
        sheet,
        budget_of(head),
        &mut constants,
        &mut index,
        &mut containers,
        &mut scratch,
    );
    let checksum = checksum
        .with_answer(answer)
        .with_table(
            constant_slots,
            constant_present,
            constant_kinds,
            constant_values,
        )
        .with_table(index_slots, index_present, index_kinds, index_values)
        .with_table(
            container_slots,
            container_present,
            container_kinds,
            container_values,
        )
        .with_scratch(marks, stack, row_kinds, row_values, work_list);
    Called { answer, checksum }
}

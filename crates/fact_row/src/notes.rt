// The fact of an instruction's note.
ghost use Rattle.std.specs.Prelude.{◌≡◌, ◌<◌};
ghost use Rattle.model.specs.Sheet.{instruction};
ghost use Rattle.model.specs.Tables.{cell_of};
ghost use Rattle.model.specs.Transfer.{or_unknown, instruction_fact};

use crate::cells::{map_cell, queue_cell};
use model::FactCell;
use sheet_fields::Sheet;

// "Opcodes (decimal)": numbers, since an instruction may hold any byte.
const MAP_NEW: u8 = 89;

const QUEUE_NEW: u8 = 96;

// "1 MapNew, 2 QueueLayout": kinds of notes, numbers for the same reason.
const MAP_NEW_NOTE: u8 = 1;

const QUEUE_LAYOUT_NOTE: u8 = 2;

// MapNew under a MapNew note, QueueNew under a QueueLayout note; Unknown where there is none.
#[tactic(auto, unfolding(model::specs::Fact::kind, model::specs::Fact::value, model::specs::Tables::cell_of, model::specs::Transfer::instruction_fact, model::specs::Transfer::instruction_fact_by, model::specs::Transfer::or_unknown))]
pub fn instruction_fact(sheet: &Sheet, pc: usize, op: u8) -> FactCell
    requires { (pc < sheet.now.sizes.code_count) × (op ≡ (instruction sheet.now.bytes.now pc).op) }
    ensures { result ≡ cell_of (or_unknown (instruction_fact sheet.now.bytes.now pc)) }
{
    match (op, sheet.note_kind(pc)) {
        (MAP_NEW, MAP_NEW_NOTE) => map_cell(sheet.note_a(pc), sheet.note_b(pc)),
        (QUEUE_NEW, QUEUE_LAYOUT_NOTE) => queue_cell(sheet.note_a(pc)),
        _ => FactCell::UNKNOWN,
    }
}

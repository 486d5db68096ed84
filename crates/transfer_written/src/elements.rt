// The elements of SlotSetN, by its note.
ghost use Rattle.std.specs.Prelude.{◌≡◌, ◌<◌};
ghost use Rattle.model.specs.Sheet.{instruction, note_a, layout_length};
ghost use Rattle.model.specs.Written.{slot_layout_note, has_elements, note_elem_slots};

use model::Instruction;
use sheet_fields::Sheet;

// "a SlotLayout note". Kinds of notes are numbers: bytes of the sheet, which may hold any.
const SLOT_LAYOUT: u8 = 3;

// The length of the note's layout A.
fn note_length(sheet: &Sheet, pc: usize) -> u16
    requires { pc < sheet.now.sizes.code_count }
    ensures { result ≡ layout_length sheet.now.bytes.now (note_a sheet.now.bytes.now pc) }
{
    let layout = sheet.note_a(pc);
    sheet.layout_length(usize::from(layout))
}

// "a SlotLayout note whose layout is not empty"
#[tactic(auto, unfolding(model::specs::Written::slot_layout_note, model::specs::Written::has_elements))]
pub fn has_elements(sheet: &Sheet, pc: usize) -> bool
    requires { pc < sheet.now.sizes.code_count }
    ensures { result ≡ has_elements (slot_layout_note sheet.now.bytes.now pc) sheet.now.bytes.now pc }
{
    match sheet.note_kind(pc) {
        SLOT_LAYOUT => 0 < note_length(sheet, pc),
        _ => false,
    }
}

// "for SlotSetN the SlotLayout's length, or without one the flags byte". It takes no InstructionAt: that has first ranges and an accepted sheet,
// which this does not need and does not ask for.
#[tactic(auto, unfolding(model::specs::Written::slot_layout_note, model::specs::Written::note_elem_slots))]
pub fn elem_slots(sheet: &Sheet, pc: usize, inst: Instruction) -> u16
    requires { (pc < sheet.now.sizes.code_count) × (inst ≡ instruction sheet.now.bytes.now pc) }
    ensures { result ≡ note_elem_slots (slot_layout_note sheet.now.bytes.now pc) sheet.now.bytes.now pc }
{
    match sheet.note_kind(pc) {
        SLOT_LAYOUT => note_length(sheet, pc),
        _ => u16::from(inst.flags),
    }
}

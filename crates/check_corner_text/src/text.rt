// The line that answers a question about a sheet.
ghost use Rattle.std.specs.Prelude.{◌<◌};
ghost use Rattle.text_lines.specs.Page.{HasRoom, Written};
ghost use Rattle.check_corner_text.specs.Answers.{answer_line};

use crate::lines::{index_writes_line, successors_line, writes_line};
use crate::{Asked, Question};
use cfg::instruction_successors;
use text_lines::Page;
use transfer_written::{InstructionAt, RangedSheet};

// The line, and nothing where what is asked is unknown.
pub fn answer_line(ranged: &RangedSheet, question: Question, page: &mut Page<'_>)
    requires { (question.pc < ranged.now.sheet.now.sizes.code_count) × HasRoom 102 page.old }
    ensures { Written 102 (answer_line ranged.now.sheet.now.bytes.now question) page.old page.new }
{
    let asked = match question.asks {
        Ok(asked) => asked,
        Err(_) => return,
    };
    let pc = question.pc;
    let slot = question.slot;
    let before = question.before;
    let sheet = ranged.sheet;
    let inst = sheet.instruction(pc);
    let at = InstructionAt { ranged, pc, inst };
    match asked {
        Asked::Successors => {
            let successors = instruction_successors(sheet.sizes.code_count, pc, inst);
            successors_line(pc, successors, page);
        }
        Asked::Writes => {
            let is_written = at.instruction_writes_slot(slot);
            writes_line(pc, slot, is_written, page);
        }
        Asked::IndexWrites => {
            let is_written = at.index_check_instruction_writes_slot(before, slot);
            index_writes_line(pc, before, slot, is_written, page);
        }
    }
}

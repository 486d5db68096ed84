// What an instruction writes, in each of the three analyses.
ghost use Rattle.std.specs.Prelude.{◌≡◌};
ghost use Rattle.model.specs.Tables.{cell_of};
ghost use Rattle.model.specs.Transfer.{fact_for};
ghost use Rattle.model.specs.Written.{writes};
ghost use Rattle.fact_row.specs.Tracked.{facts_read};
ghost use Rattle.transfer_written.specs.Spans.{elements_fact, elements_in};

use crate::elements::{elem_slots, has_elements};
use crate::ranges::{holds, span};
use crate::{InstructionAt, Written};
use fact_row::TrackedRow;
use model::{AnalysisKind, FactCell, Instruction};

// "Opcodes (decimal)": the two that go by their own rule; numbers, since an instruction may hold any byte.
const SLOT_SET: u8 = 6;

const SLOT_SET_N: u8 = 8;

// b's cell where it says how many elements are written; Unknown in the other analyses and of any other instruction, so that none is
// looked up in vain.
#[tactic(auto, unfolding(model::specs::Fact::kind, model::specs::Fact::value, model::specs::Tables::cell_of, model::specs::Written::writes, model::specs::Opcode::select, crate::specs::Spans::elements_fact, crate::specs::Spans::elements_in))]
fn elements_fact(which: AnalysisKind, row: &TrackedRow, inst: Instruction) -> FactCell
    ensures { result ≡ cell_of (elements_in which (elements_fact (writes inst.op) (fact_for row.now.slots.now (facts_read row.now) inst.b))) }
{
    match (which, inst.op) {
        (AnalysisKind::IndexCheck, SLOT_SET | SLOT_SET_N) => {
            row.fact_for_tracked_source(usize::from(inst.b))
        }
        _ => FactCell::UNKNOWN,
    }
}

impl InstructionAt<'_> {
    ghost use Rattle.std.specs.Prelude.{◌≡◌};
    ghost use Rattle.model.specs.Tables.{fact_in};
    ghost use Rattle.model.specs.Written.{written, index_written};
    ghost use Rattle.fact_row.specs.Tracked.{facts_read};
    ghost use Rattle.transfer_written.specs.Spans.{index_spans, slots_written};

    // "SlotSet and SlotSetN whose b is Checked len write exactly a up to a + len × e". Of any other b, "SlotSet writes every slot from a up.
    // SlotSetN does so with a SlotLayout note whose layout is not empty, and else writes nothing." `before` is b's cell, Unknown but in the
    // index analysis.
    #[tactic(auto, unfolding(model::specs::Tables::fact_in, model::specs::Tables::fact_of, model::specs::Written::writes, model::specs::Opcode::select, crate::specs::Spans::element_spans, crate::specs::Spans::spans_by, crate::specs::Spans::spans, crate::specs::Spans::index_spans_by, crate::specs::Spans::index_spans))]
    fn instruction_writes(&self, before: FactCell) -> Written
        ensures { result ≡ index_spans self.now.ranged.now.sheet.now.bytes.now self.now.pc (fact_in before) }
    {
        let inst = self.inst;
        let is_checked = 1 < before.kind;
        match inst.op {
            SLOT_SET if is_checked => Written::Span {
                start: inst.a,
                count: span(before.value, 1),
            },
            SLOT_SET => Written::Span {
                start: inst.a,
                count: 65536,
            },
            SLOT_SET_N if is_checked => Written::Span {
                start: inst.a,
                count: span(
                    before.value,
                    elem_slots(self.ranged.sheet, self.pc, self.inst),
                ),
            },
            SLOT_SET_N if has_elements(self.ranged.sheet, self.pc) => Written::Span {
                start: inst.a,
                count: 65536,
            },
            SLOT_SET_N => Written::Span { start: 0, count: 0 },
            _ => self.ranged.ranges_written(self.pc),
        }
    }

    // `index_check_instruction_writes_slot`: whether a slot is among those that the run finds.
    pub fn index_check_instruction_writes_slot(&self, before: FactCell, slot: u16) -> bool
        ensures { result ≡ index_written self.now.ranged.now.sheet.now.bytes.now self.now.pc (fact_in before) slot }
    {
        let found = self.instruction_writes(before);
        holds(self.ranged.sheet, found, slot)
    }

    // `instruction_writes_slot`: the same in the constant and container analyses, which know no Checked b.
    pub fn instruction_writes_slot(&self, slot: u16) -> bool
        ensures { result ≡ written self.now.ranged.now.sheet.now.bytes.now self.now.pc slot }
    {
        self.index_check_instruction_writes_slot(FactCell::UNKNOWN, slot)
    }

    // The slots that the instruction writes, in one of the analyses.
    pub fn slots_written(&self, which: AnalysisKind, row: &TrackedRow) -> Written
        ensures { result ≡ slots_written which self.now.ranged.now.sheet.now.bytes.now self.now.pc row.now.slots.now (facts_read row.now) }
    {
        let before = elements_fact(which, row, self.inst);
        self.instruction_writes(before)
    }
}

// "for index, the ended constant run": what each IndexCheck makes of its fact of b, found once, before the index run.
ghost use Rattle.std.specs.Prelude.{◌≡◌, true, List, ℕ, ◌*◌, ◌<◌, ◌≤◌, length};
ghost use Rattle.std.proofs.Math.Option.{Option};
ghost use Rattle.model.specs.Fact.{Row};
ghost use Rattle.model.specs.Sheet.{code_count, instruction};
ghost use Rattle.model.specs.Run.{row_at};
ghost use Rattle.model.specs.Lookup.{ascends};
ghost use Rattle.model.specs.Tables.{cell_of};
ghost use Rattle.model.specs.Transfer.{checked_from};
ghost use Rattle.model.specs.Analyses.{Analysed, row_fact, length_facts};
ghost use Rattle.fixpoint_step.specs.Lengths.{lengths_in};
ghost use Rattle.call_order.specs.Lengths.{length_fact, lengths_stored};

use crate::INDEX_CHECK;
use fact_row::{checked_cell, find};
use fixpoint_step::LengthFact;
use model::FactCell;
use sheet_fields::Sheet;

// The slots and the tables of the ended constant run. They are no `Tables` of crate lookup, which may hold anything, so that question 9 is asked of
// them: these are known to agree.
#[derive(Drop)]
pub struct EndedTables<'a> {
    pub slots: &'a [u16],
    pub present: &'a [u8],
    pub kinds: &'a [u8],
    pub values: &'a [u64],
    pub ghost ascending: { ascends slots.now ≡ true },
    // a row has s kinds and values
    pub ghost kinds_long: { length kinds.now ≡ length present.now * length slots.now },
    pub ghost values_long: { length values.now ≡ length present.now * length slots.now },
}

impl EndedTables<'_> {
    ghost use Rattle.call_order.specs.Ended.{Holds};

    // The fact of a slot in the row at pc: Unknown where the row is absent or the slot is not tracked.
    fn row_fact(&self, pc: usize, slot: usize) -> FactCell
        requires { pc < length self.now.present.now }
        ensures { (rows : List (Option Row)) → Holds self.now rows → result ≡ cell_of (row_fact self.now.slots.now (row_at rows pc) slot) }
    {
        if self.present[pc] == 0 {
            return FactCell::UNKNOWN;
        }
        let Some(j) = find(self.slots, slot) else {
            return FactCell::UNKNOWN;
        };
        let at = pc * self.slots.len() + j;
        FactCell {
            kind: self.kinds[at],
            value: self.values[at],
        }
    }

    // What stands in the table for the instruction at pc.
    fn length_fact(&self, sheet: &Sheet, pc: usize) -> FactCell
        requires { (pc < sheet.now.sizes.code_count) × (length self.now.present.now ≡ sheet.now.sizes.code_count) }
        ensures fact { (rows : List (Option Row)) → Holds self.now rows → result ≡ cell_of (length_fact sheet.now.bytes.now self.now.slots.now rows pc) }
        ensures short { result.value ≤ 65535 }
    {
        let inst = sheet.instruction(pc);
        if inst.op == INDEX_CHECK {
            checked_cell(self.row_fact(pc, usize::from(inst.b)))
        } else {
            FactCell::UNKNOWN
        }
    }

    // For each instruction the fact that `length_fact` names, in the first n places of a table: at each IndexCheck what it makes of the
    // ended constant run's fact of b, which is all that the index analysis reads. So a value is a length of 16 bits.
    pub fn length_facts(&self, sheet: &Sheet, lengths: &mut [LengthFact])
        requires { (length self.now.present.now ≡ sheet.now.sizes.code_count) × (sheet.now.sizes.code_count ≤ length lengths.old) }
        ensures stored { (rows : List (Option Row)) → Holds self.now rows → lengths.new ≡ lengths_stored sheet.now.bytes.now self.now.slots.now rows lengths.old }
        ensures read { (constants : Analysed) → constants.slots ≡ self.now.slots.now → Holds self.now constants.rows
            → (pc : ℕ) → pc < code_count sheet.now.bytes.now → (instruction sheet.now.bytes.now pc).op ≡ 121
            → checked_from (lengths_in lengths.new pc) ≡ checked_from (length_facts sheet.now.bytes.now constants pc) }
    {
        let n = sheet.sizes.code_count;
        for pc in 0..n {
            let cell = self.length_fact(sheet, pc);
            lengths[pc] = LengthFact {
                kind: cell.kind,
                value: cell.value as u16,
            };
        }
    }
}

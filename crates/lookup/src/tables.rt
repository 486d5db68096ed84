// The tables of one analysis, as a lookup is lent them.
ghost use Rattle.std.specs.Prelude.{◌≡◌};
ghost use Rattle.model.specs.Lookup.{last_kind, fact_for_slot, is_reachable, fixed, fact_with_numbers, reachability_with_numbers};

mod cells;
mod question;
mod shown;

use model::{AnalysisKind, Damaged, Reachability, SlotFact};
use std::marker::Model;

// The slots, the present bytes, and the kinds and values of the rows. A clause sees them as a table of the definitions.
#[derive(Drop)]
pub struct Tables<'a> {
    pub slots: &'a [u16],
    pub present: &'a [u8],
    pub kinds: &'a [u8],
    pub values: &'a [u64],
}

impl<'a> Model for Tables<'a> {
    ghost use Rattle.model.specs.Call.{Table, table};

    ghost Value = { Table };

    ghost view = { λ t. table t.slots.now t.present.now t.kinds.now t.values.now };
}

// The last kind that the analysis names.
fn last_kind(which: AnalysisKind) -> u8
    ensures { result ≡ last_kind which }
{
    match which {
        AnalysisKind::Constant => 3,
        AnalysisKind::IndexCheck => 2,
        AnalysisKind::Container => 4,
    }
}

// "yes for byte 1, no for 0 or pc from n up, 9 for another byte"
pub fn is_reachable(present: &[u8], pc: u64) -> Reachability
    ensures { reachability_with_numbers result ≡ reachability_with_numbers (is_reachable present.now pc) }
{
    match cells::present_byte(present, pc) {
        0 => Ok(false),
        1 => Ok(true),
        _ => Err(Damaged),
    }
}

impl Tables<'_> {
    // `fact_for_slot` of an analysis: 9, none, or the cell's kind and value. The three analyses differ in the last kind that they name.
    pub fn fact_for_slot(&self, which: AnalysisKind, pc: u64, slot: u16) -> SlotFact
        ensures { let t = self.now in
            fact_with_numbers result ≡ fact_with_numbers (fact_for_slot which t.slots t.present t.kinds t.values pc slot) }
    {
        let at = self.place(slot)?;
        if self.names(last_kind(which), at, pc) {
            Ok(self.cell(at, pc))
        } else {
            Err(Damaged)
        }
    }

    // "A lookup lent all the constant tables gives that kind and value, else none; it asks 9 of every instruction."
    pub fn fixed_fact(&self, slot: u16) -> SlotFact
        ensures { let t = self.now in fact_with_numbers result ≡ fact_with_numbers (fixed t.slots t.present t.kinds t.values slot) }
    {
        let at = self.place(slot)?;
        if self.names_all(at) {
            Ok(self.fixed_at(at))
        } else {
            Err(Damaged)
        }
    }
}

// What the index analysis reads of the constants.
ghost use Rattle.std.specs.Prelude.{◌≡◌, true, false, ◌≤◌, is_err, length};
ghost use Rattle.model.specs.Analyses.{Analysed};
ghost use Rattle.model.specs.Call.{table};
ghost use Rattle.call_order.specs.Stored.{Stored, Lengthened};

use crate::facts::EndedTables;
use budget::Outcome;
use fixpoint_step::LengthFact;
use model::Counts;
use sheet_fields::Sheet;

// The constants' facts at each IndexCheck, from the output of the constant analysis; nothing where the outcome so far is a refusal. What is only read is
// asked as shared slices: a LentTable lends for writing, and a caller who may only read has none.
pub fn store_lengths(
    sheet: &Sheet,
    constant: Counts,
    slots: &[u16],
    present: &[u8],
    kinds: &[u8],
    values: &[u64],
    before: Outcome,
    lengths: &mut [LengthFact],
)
    requires room { sheet.now.sizes.code_count ≤ length lengths.old }
    requires constants_stored { is_err before ≡ false
        → (a : Analysed) × Stored sheet.now.bytes.now a constant (table slots.now present.now kinds.now values.now) }
    ensures stored { is_err before ≡ false
        → (a : Analysed) → Stored sheet.now.bytes.now a constant (table slots.now present.now kinds.now values.now)
        → Lengthened sheet.now.bytes.now a lengths.old lengths.new }
    ensures kept { is_err before ≡ true → lengths.new ≡ lengths.old }
{
    if before.is_err() {
        return;
    }
    let n = sheet.sizes.code_count;
    let s = constant.tracked as usize;
    let cells = n * s;
    let constants = EndedTables {
        slots: &slots[..s],
        present: &present[..n],
        kinds: &kinds[..cells],
        values: &values[..cells],
    };
    constants.length_facts(sheet, lengths);
}

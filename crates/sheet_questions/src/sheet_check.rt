// Questions 1 to 5 on any bytes.
ghost use Rattle.std.specs.Prelude.{◌≡◌, IfOk};
ghost use Rattle.sheet_questions.specs.Check.{sized, sheet_check};

use crate::limits::{sizes_of, within_limits};
use crate::question_5::kinds_named;
use crate::sums::sums_match;
use model::Question;
use sheet_fields::Sheet;

// Questions 4 and 5, of a sheet that 1 to 3 leave.
fn check_fields<'a>(sheet: Sheet<'a>) -> Result<Sheet<'a>, Question>
    ensures answer { sized result ≡ sheet_check sheet.entry.bytes.now }
    ensures bytes { IfOk result (λ s. s.bytes.now ≡ sheet.entry.bytes.now) }
{
    if !sums_match(&sheet) {
        return Err(Question::Sums);
    }
    if !kinds_named(&sheet) {
        return Err(Question::Kinds);
    }
    Ok(sheet)
}

// The sheet with its sizes, or the first of the questions 1 to 5 that refuses it.
pub fn check_sheet<'a>(bytes: &'a [u8]) -> Result<Sheet<'a>, Question>
    ensures answer { sized result ≡ sheet_check bytes.now }
    ensures bytes { IfOk result (λ s. s.bytes.now ≡ bytes.now) }
{
    if bytes.len() < 40 {
        return Err(Question::Head);
    }
    if !within_limits(bytes) {
        return Err(Question::Limits);
    }
    let sizes = sizes_of(bytes);
    if bytes.len() != sizes.places.slot_kinds + sizes.slot_kind_count {
        return Err(Question::Length);
    }
    check_fields(Sheet { bytes, sizes })
}

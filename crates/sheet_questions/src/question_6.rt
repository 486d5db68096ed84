// Question 6, of a call, after questions 1 to 5 of its sheet.
ghost use Rattle.std.specs.Prelude.{◌≡◌, IfOk};
ghost use Rattle.sheet_questions.specs.Check.{sized};
ghost use Rattle.sheet_questions.specs.Admitted.{admission};

use crate::sheet_check::check_sheet;
use model::Question;
use sheet_fields::Sheet;

// The sheet with its sizes, or the first of the questions 1 to 6 that refuses. "6. Have the marks and the closure's stack at least L
// entries each?"
pub fn admit<'a>(bytes: &'a [u8], marks_len: usize, stack_len: usize) -> Result<Sheet<'a>, Question>
    ensures answer { sized result ≡ admission bytes.now marks_len stack_len }
    ensures bytes { IfOk result (λ s. s.bytes.now ≡ bytes.now) }
{
    let sheet = check_sheet(bytes)?;
    if marks_len < sheet.sizes.local_slots {
        return Err(Question::ClosureRoom);
    }
    if stack_len < sheet.sizes.local_slots {
        return Err(Question::ClosureRoom);
    }
    Ok(sheet)
}

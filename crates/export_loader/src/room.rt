// How much memory a call needs: n, and the s of each analysis, from the closures alone.
ghost use Rattle.std.specs.Prelude.{◌≡◌, [], ◌∷◌, ◌≤◌, leb, length};
ghost use Rattle.model.specs.Call.{zeros};
ghost use Rattle.model.specs.Interface.{in_front};
ghost use Rattle.model.specs.Room.{closure_slots, room, room_numbers, room_of};

use closure::tracked_slots;
use memory::clear;
use model::{AnalysisKind, VerifierResources};
use sheet_fields::Sheet;
use sheet_questions::admit;

// What C is told, which has no Result: the memory for the numbers has fewer than four entries.
const TOO_SHORT: u8 = 255;

// The s of one analysis. No charge of its closure is refused: marks and stack are charged with 3 for each of L, and each of at most L turns with at
// most 2 for each instruction.
// Marks and stack are the C interface's two slices, here and below. They are zero between the closures and not in them, so no struct carries it.
fn count_tracked(which: AnalysisKind, sheet: &Sheet, marks: &mut [u8], stack: &mut [u16]) -> u64
    requires { (sheet.now.sizes.local_slots ≤ length marks.old) × (sheet.now.sizes.local_slots ≤ length stack.old)
        × (marks.old ≡ zeros marks.old) × (stack.old ≡ zeros stack.old) }
    ensures counts { result ≡ length (closure_slots which sheet.now.bytes.now) }
    ensures marks { marks.new ≡ marks.old }
    ensures stack { stack.new ≡ stack.old }
{
    let plenty = VerifierResources {
        bytes: u64::MAX,
        work: u64::MAX,
    };
    // The slots are not wanted: where they do not fit, they are only counted.
    let mut slots = [0u16; 1];
    match tracked_slots(which, sheet, plenty, &mut slots, marks, stack) {
        Ok(tracked) => tracked.s as u64,
        Err(_) => 0,
    }
}

// Four numbers at the front of out, which keeps those behind them.
// That they fit is asked, here and below: out is the C interface's slice, of any length, and `room_of` asks once.
#[tactic(auto, unfolding(model::specs::Interface::in_front))]
fn put_four(n: u64, constant: u64, index: u64, container: u64, out: &mut [u64])
    requires { 4 ≤ length out.old }
    ensures { out.new ≡ in_front (n ∷ constant ∷ index ∷ container ∷ []) out.old }
{
    out[..4].copy_from_slice(&[n, constant, index, container]);
}

// n and the s of each analysis, by marks and stack that are zero, before and after.
fn put_counts(sheet: &Sheet, marks: &mut [u8], stack: &mut [u16], out: &mut [u64])
    requires ready { (sheet.now.sizes.local_slots ≤ length marks.old) × (sheet.now.sizes.local_slots ≤ length stack.old)
        × (marks.old ≡ zeros marks.old) × (stack.old ≡ zeros stack.old) }
    requires four { 4 ≤ length out.old }
    ensures marks { marks.new ≡ marks.old }
    ensures stack { stack.new ≡ stack.old }
    ensures numbers { out.new ≡ in_front (room_numbers sheet.now.bytes.now) out.old }
{
    let constant = count_tracked(AnalysisKind::Constant, sheet, marks, stack);
    let index = count_tracked(AnalysisKind::IndexCheck, sheet, marks, stack);
    let container = count_tracked(AnalysisKind::Container, sheet, marks, stack);
    let n = sheet.sizes.code_count as u64;
    put_four(n, constant, index, container, out);
}

// The same, with marks and stack cleared first.
fn put_room(sheet: &Sheet, marks: &mut [u8], stack: &mut [u16], out: &mut [u64])
    requires { (sheet.now.sizes.local_slots ≤ length marks.old) × (sheet.now.sizes.local_slots ≤ length stack.old) × (4 ≤ length out.old) }
    ensures { (marks.new ≡ zeros marks.old) × (stack.new ≡ zeros stack.old)
        × (out.new ≡ in_front (room_numbers sheet.now.bytes.now) out.old) }
{
    clear(marks);
    clear(stack);
    put_counts(sheet, marks, stack, out);
}

// 0 with n and the s of each analysis at the front of out; the number of the first of the questions 1 to 6 that refuses; 255 where out has fewer
// than 4 entries.
pub fn room_of(bytes: &[u8], marks: &mut [u8], stack: &mut [u16], out: &mut [u64]) -> u8
    ensures { room result marks.new stack.new out.new
        ≡ room_of (leb 4 (length out.old)) bytes.now marks.old stack.old out.old }
{
    if out.len() < 4 {
        return TOO_SHORT;
    }
    match admit(bytes, marks.len(), stack.len()) {
        Ok(sheet) => {
            put_room(&sheet, marks, stack, out);
            0
        }
        Err(question) => question.number(),
    }
}

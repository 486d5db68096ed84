// What the program `facts` writes for a sheet: its listing, `refused` and a number, or `too large`.
#![tactic(auto)]

ghost use Rattle.std.specs.Prelude.{◌≡◌, ◌≤◌, length, take, drop};
ghost use Rattle.std.proofs.Math.Option.{none, some};
ghost use Rattle.model.specs.Listing.{asked, listing, refused_line, too_large};
ghost use Rattle.model.specs.Sheet.{question_number};
ghost use Rattle.sheet.specs.Measured.{Accepted};
ghost use Rattle.text_lines.specs.Text.{ShowsText};

use facts_call::list_facts;
use model::Question;
use sheet_fields::Sheet;
use sheet_index::{IndexedSheet, index_sheet};
use sheet_questions::check_sheet;
use text_lines::Page;

// "a sheet over 65,536 bytes"
const MOST_BYTES: usize = 65536;

// "n over 256"
const MOST_INSTRUCTIONS: usize = 256;

// "L over 4,096"
const MOST_LOCALS: usize = 4096;

// A length is answered, here and below, and not the text: no contract can say what stays behind a slice that is handed back.

// "`too large` alone"
fn too_large(out: &mut [u8]) -> usize
    requires { 10 ≤ length out.old }
    ensures { ShowsText (some too_large) out.old result out.new }
{
    let mut page = Page::new(out);
    page.too_large();
    page.finished()
}

// "Refusals print only `refused` and the number."
fn refused(question: Question, out: &mut [u8]) -> usize
    requires { 29 ≤ length out.old }
    ensures { ShowsText (some (refused_line (question_number question))) out.old result out.new }
{
    let mut page = Page::new(out);
    page.refused_line(question.number());
    page.finished()
}

// Writes the listing of a sheet to the front of out, and answers its length: the first r bytes of out are the text that the definitions give for the
// sheet (`listing`), for every outcome of the call, and the rest of out stays as it was. Three analyses have at most 729,161 bytes each, and the last
// line 47. "`too large` alone is printed for a sheet over 65,536 bytes before question 1"
pub fn list(bytes: &[u8], out: &mut [u8; 2187530]) -> usize
    ensures { (result ≤ length out.new) × (listing bytes.now ≡ some (take result out.new)) × (drop result out.new ≡ drop result out.old) }
{
    if MOST_BYTES < bytes.len() {
        return too_large(out);
    }
    match check_sheet(bytes) {
        Ok(sheet) => list_accepted(&sheet, out),
        Err(question) => refused(question, out),
    }
}

// "for n over 256 or L over 4,096 in question 6's place": the call itself would first charge for them, and could answer 7
// The tables are arrays of the most entries that there can be, since there is no heap.
fn list_accepted(sheet: &Sheet, out: &mut [u8]) -> usize
    requires { Accepted sheet.now.bytes.now sheet.now.sizes × (2187530 ≤ length out.old) }
    ensures { ShowsText (asked none sheet.now.bytes.now) out.old result out.new }
{
    if MOST_INSTRUCTIONS < sheet.sizes.code_count {
        return too_large(out);
    }
    if MOST_LOCALS < sheet.sizes.local_slots {
        return too_large(out);
    }
    let mut firsts = [0u16; 256];
    let mut classes = [0u16; 1025];
    index_sheet(sheet, &mut firsts, &mut classes);
    let indexed = IndexedSheet {
        sheet,
        firsts: &firsts,
        classes: &classes,
    };
    list_facts(&indexed, out)
}

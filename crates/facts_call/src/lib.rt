// The call, and the text of what it answered and left.
#![tactic(auto)]

ghost use Rattle.std.specs.Prelude.{◌≡◌, ◌≤◌, length};
ghost use Rattle.model.specs.Charges.{fresh};
ghost use Rattle.model.specs.Call.{call};
ghost use Rattle.model.specs.Listing.{call_lines, listing_lent};
ghost use Rattle.stage_memory.specs.Lent.{table_in};
ghost use Rattle.text_lines.specs.Text.{ShowsText};

use call_indexed::analyze_indexed;
use lookup::Tables;
use model::VerifierResources;
use sheet_index::IndexedSheet;
use stage_memory::{LentScratch, LentTable};
use text_lines::Page;
use text_listing::call_lines;

// The output of an analysis, to be read. No From, since neither type is of this crate.
fn tables<'a>(output: &'a LentTable) -> Tables<'a>
    ensures { result ≡ table_in output.now }
{
    Tables {
        slots: output.slots,
        present: output.present,
        kinds: output.kinds,
        values: output.values,
    }
}

// "for s over 32 in question 8's [place]": what is lent has room for 32 tracked slots. The sheet is accepted and its index found, and n and L are in
// their limits: nothing is asked or found again. A length is answered, and not the text: no contract can say what stays behind a slice that is handed back.
// The buffers are arrays, since there is no heap.
pub fn list_facts(indexed: &IndexedSheet, out: &mut [u8]) -> usize
    requires { (indexed.now.sheet.now.sizes.code_count ≤ 256)
        × (indexed.now.sheet.now.sizes.local_slots ≤ 4096)
        × (2187530 ≤ length out.old) }
    ensures { ShowsText (call_lines indexed.now.sheet.now.bytes.now (call indexed.now.sheet.now.bytes.now fresh listing_lent)) out.old result out.new }
{
    let mut constant_slots = [0u16; 32];
    let mut constant_present = [0u8; 256];
    let mut constant_kinds = [0u8; 8192];
    let mut constant_values = [0u64; 8192];
    let mut index_slots = [0u16; 32];
    let mut index_present = [0u8; 256];
    let mut index_kinds = [0u8; 8192];
    let mut index_values = [0u64; 8192];
    let mut container_slots = [0u16; 32];
    let mut container_present = [0u8; 256];
    let mut container_kinds = [0u8; 8192];
    let mut container_values = [0u64; 8192];
    let mut marks = [0u8; 4096];
    let mut stack = [0u16; 4096];
    let mut row_kinds = [0u8; 32];
    let mut row_values = [0u64; 32];
    let mut work_list = [0u16; 16640];
    let mut constants = LentTable {
        slots: &mut constant_slots,
        present: &mut constant_present,
        kinds: &mut constant_kinds,
        values: &mut constant_values,
    };
    let mut index = LentTable {
        slots: &mut index_slots,
        present: &mut index_present,
        kinds: &mut index_kinds,
        values: &mut index_values,
    };
    let mut containers = LentTable {
        slots: &mut container_slots,
        present: &mut container_present,
        kinds: &mut container_kinds,
        values: &mut container_values,
    };
    let mut scratch = LentScratch {
        marks: &mut marks,
        stack: &mut stack,
        row_kinds: &mut row_kinds,
        row_values: &mut row_values,
        work_list: &mut work_list,
    };
    let answer = analyze_indexed(
        indexed,
        VerifierResources::new(),
        &mut constants,
        &mut index,
        &mut containers,
        &mut scratch,
    );
    let mut page = Page::new(out);
    call_lines(
        answer,
        indexed.classes,
        indexed.sheet.sizes.code_count,
        &tables(&constants),
        &tables(&index),
        &tables(&containers),
        &mut page,
    );
    page.finished()
}

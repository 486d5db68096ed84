// The text of a fact, by its kind and value.
#![tactic(auto)]

ghost use Rattle.std.specs.Prelude.{List, ◌++◌, ℕ, ◌+◌, ◌≤◌, ◌≡◌, length};
ghost use Rattle.model.specs.Listing.{ascii, decimal, constant_text};
ghost use Rattle.model.specs.Tables.{fact_of};
ghost use Rattle.text_lines.specs.Page.{HasRoom, Written};
ghost use Rattle.text_facts.specs.Text.{pair_word};

use model::{AnalysisKind, FactCell};
use sheet_layouts::class_of;
use text_lines::Page;

// How the facts of an analysis are printed: of which one, with each layout by its class. classes is what layout_classes has filled.
#[derive(Clone, Copy)]
pub struct FactPrinter<'a> {
    pub which: AnalysisKind,
    pub classes: &'a [u16],
}

// "A known constant prints in signed decimal.": kind 3 is value − 2^64
fn put_constant(cell: FactCell, page: &mut Page<'_>)
    requires { (2 ≤ cell.kind) × HasRoom 21 page.old }
    ensures { (sheet : List ℕ) → Written 21 (constant_text sheet (fact_of cell.kind cell.value)) page.old page.new }
{
    let value = cell.value;
    if cell.kind < 3 {
        page.put_decimal(value);
    } else if value == 0 {
        // written out: 2^64, which stands behind the minus sign, is one more than a u64 can be, and `put_decimal` takes a u64
        page.put(b"-18446744073709551616");
    } else {
        page.put(b"-");
        page.put_decimal(18446744073709551615 - value + 1);
    }
}

// "`checked 4`"
fn put_checked(value: u64, page: &mut Page<'_>)
    requires { HasRoom 28 page.old }
    ensures { Written 28 (ascii "checked " ++ decimal value) page.old page.new }
{
    page.put(b"checked ");
    page.put_decimal(value);
}

// The word of a container with two layouts.
fn pair_word(kind: u8) -> &'static [u8]
    ensures { (result.now ≡ pair_word kind) × (length result.now ≤ 5) }
{
    if kind == 2 { b"map " } else { b"iter " }
}

impl FactPrinter<'_> {
    ghost use Rattle.std.specs.Prelude.{◌≤◌};
    ghost use Rattle.model.specs.Tables.{fact_of};
    ghost use Rattle.text_lines.specs.Page.{HasRoom, Written};
    ghost use Rattle.text_facts.specs.Text.{container_text_by, fact_text_by};

    // "`map 0 1`, `iter 0 1`, `queue 2`, with the lowest layout number of equal content": its class
    fn put_container(&self, cell: FactCell, page: &mut Page<'_>)
        requires { (2 ≤ cell.kind) × HasRoom 46 page.old }
        ensures { Written 46 (container_text_by self.now.classes.now (fact_of cell.kind cell.value)) page.old page.new }
    {
        let first = class_of(self.classes, (cell.value / 65536) as usize) as u64;
        if 3 < cell.kind {
            page.put(b"queue ");
            page.put_decimal(first);
            return;
        }
        let second = class_of(self.classes, (cell.value % 65536) as usize) as u64;
        page.put(pair_word(cell.kind));
        page.put_decimal(first);
        page.put_spaced(second);
    }

    // The text of a fact of the analysis.
    pub fn put_fact(&self, cell: FactCell, page: &mut Page<'_>)
        requires { HasRoom 46 page.old }
        ensures { Written 46 (fact_text_by self.now.which self.now.classes.now (fact_of cell.kind cell.value)) page.old page.new }
    {
        if cell.kind == 0 {
            page.put(b"unknown");
            return;
        }
        if cell.kind == 1 {
            page.put(b"conflict");
            return;
        }
        match self.which {
            AnalysisKind::Constant => put_constant(cell, page),
            AnalysisKind::IndexCheck => put_checked(cell.value, page),
            AnalysisKind::Container => self.put_container(cell, page),
        }
    }
}

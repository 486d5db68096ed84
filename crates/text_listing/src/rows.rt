// "Cells: pc, slot, fact; present rows ascending, slots ascending."
ghost use Rattle.std.specs.Prelude.{◌≡◌, ◌*◌, ◌≤◌, length, take};
ghost use Rattle.model.specs.Count.{collect};
ghost use Rattle.model.specs.Listing.{present_lines};
ghost use Rattle.model.specs.Tables.{fact_of};
ghost use Rattle.text_lines.specs.Page.{HasRoom, Written};
ghost use Rattle.text_facts.specs.Text.{fact_text_by};
ghost use Rattle.text_listing.specs.Rows.{cell_line, table_row_of, row_in};

use lookup::Tables;
use model::FactCell;
use text_facts::FactPrinter;
use text_lines::Page;

// The line of one cell.
fn cell_line(printer: &FactPrinter<'_>, pc: u64, slot: u16, cell: FactCell, page: &mut Page<'_>)
    requires { HasRoom 89 page.old }
    ensures { Written 89 (cell_line (fact_text_by printer.now.which printer.now.classes.now) pc slot (fact_of cell.kind cell.value)) page.old page.new }
{
    page.put_decimal(pc);
    page.put_spaced(u64::from(slot));
    page.put(b" ");
    printer.put_fact(cell, page);
    page.put(b"\n");
}

// The lines of the row of pc, from its present byte and its parts of kinds and values: none for an absent row. Three slices are read at j, since two
// zips would be no plainer.
fn row_lines(
    printer: &FactPrinter<'_>,
    pc: u64,
    slots: &[u16],
    present: u8,
    kinds: &[u8],
    values: &[u64],
    page: &mut Page<'_>,
)
    requires { (length kinds.now ≡ length slots.now) × (length values.now ≡ length slots.now) × HasRoom (89 * length slots.now) page.old }
    ensures { Written (89 * length slots.now)
        (present_lines (fact_text_by printer.now.which printer.now.classes.now) pc slots.now (table_row_of present kinds.now values.now))
        page.old page.new }
{
    if present != 1 {
        return;
    }
    for j in 0..slots.len() {
        let cell = FactCell {
            kind: kinds[j],
            value: values[j],
        };
        cell_line(printer, pc, slots[j], cell, page);
    }
}

// "present rows ascending": the lines of n rows of s cells each. The rows are counted: s may be 0, and chunks of none panic.
pub fn rows_lines(
    printer: &FactPrinter<'_>,
    n: usize,
    s: usize,
    tables: &Tables<'_>,
    page: &mut Page<'_>,
)
    requires { let t = tables.now in
        (s ≤ length t.slots) × (n ≤ length t.present) × (n * s ≤ length t.kinds) × (n * s ≤ length t.values) × HasRoom (n * (89 * s)) page.old }
    ensures { let t = tables.now in
        Written (n * (89 * s)) (collect (λ pc. present_lines (fact_text_by printer.now.which printer.now.classes.now) pc (take s t.slots) (row_in s t pc)) n) page.old page.new }
{
    let mut from = 0;
    for pc in 0..n {
        let end = from + s;
        row_lines(
            printer,
            pc as u64,
            &tables.slots[..s],
            tables.present[pc],
            &tables.kinds[from..end],
            &tables.values[from..end],
            page,
        );
        from = end;
    }
}

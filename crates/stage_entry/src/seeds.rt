// The parameters' facts, charged and set in a row. A refusal leaves the row zero.
ghost use Rattle.std.specs.Prelude.{◌≡◌, ◌<◌};
ghost use Rattle.std.proofs.Math.Option.{some};
ghost use Rattle.model.specs.Fact.{Fact, Row};
ghost use Rattle.model.specs.Sheet.{param_count};
ghost use Rattle.model.specs.Tables.{RowLies, cell_of};
ghost use Rattle.model.specs.Parameters.{param_start, param_fact, seed_param, seed_params, param_row};
ghost use Rattle.model.specs.Analyses.{unknown_row};
ghost use Rattle.fact_row.specs.Changed.{cells_in, SameRow, RowZero};
ghost use Rattle.stage_entry.specs.First.{LeavesRow, RowLeft};

use crate::layouts::charge_layouts;
use crate::params::{param_fact, param_start};
use budget::Outcome;
use fact_row::FactRow;
use model::{FactCell, VerifierResources};
use sheet_fields::Sheet;

// "layout bytes are charged even for an untracked slot, and of two at one slot the later stays"
fn seed_fact(
    sheet: &Sheet,
    slot: usize,
    cell: FactCell,
    resources: VerifierResources,
    row: &mut FactRow,
) -> Outcome
    ensures same { SameRow row.old row.new }
    ensures leaves { (facts : Row) (fact : Fact) → RowLies facts (cells_in row.old) → cell ≡ cell_of fact
        → LeavesRow row.old.slots.now (seed_param sheet.now.bytes.now row.old.slots.now slot (some fact) facts resources) result (cells_in row.new) }
{
    let charged = charge_layouts(sheet, cell, resources);
    if charged.is_err() {
        row.clear();
        return charged;
    }
    row.set(slot, cell);
    charged
}

// Parameter i, whose first slot is given. One that is no container changes nothing.
fn seed_param(
    sheet: &Sheet,
    slot: usize,
    i: usize,
    resources: VerifierResources,
    row: &mut FactRow,
) -> Outcome
    requires { i < sheet.now.sizes.param_count }
    ensures same { SameRow row.old row.new }
    ensures leaves { (facts : Row) → RowLies facts (cells_in row.old)
        → LeavesRow row.old.slots.now (seed_param sheet.now.bytes.now row.old.slots.now slot (param_fact sheet.now.bytes.now i) facts resources) result (cells_in row.new) }
{
    let cell = param_fact(sheet, i);
    if cell.kind == 0 {
        return Ok(resources);
    }
    seed_fact(sheet, slot, cell, resources, row)
}

// All parameters in order, the first at start.
fn seed_params(
    sheet: &Sheet,
    start: u16,
    resources: VerifierResources,
    row: &mut FactRow,
) -> Outcome
    ensures same { SameRow row.old row.new }
    ensures leaves { (facts : Row) → RowLies facts (cells_in row.old)
        → LeavesRow row.old.slots.now (seed_params sheet.now.bytes.now row.old.slots.now start (param_count sheet.now.bytes.now) facts resources) result (cells_in row.new) }
{
    let count = sheet.sizes.param_count;
    let begin = usize::from(start);
    let mut left = resources;
    let mut passed: usize = 0;
    for i in 0..count {
        let slot = begin + passed;
        left = seed_param(sheet, slot, i, left, row)?;
        passed += usize::from(sheet.param_width(i));
    }
    Ok(left)
}

// "for containers with the Parameters facts in it": a row that is zero, with these facts in it if there is a start.
pub fn param_row(sheet: &Sheet, resources: VerifierResources, row: &mut FactRow) -> Outcome
    requires { RowZero row.old }
    ensures { let slots = row.old.slots.now in
        RowLeft (param_row sheet.now.bytes.now slots (param_start sheet.now.bytes.now) (unknown_row slots) resources) result row.old row.new }
{
    let Some(start) = param_start(sheet) else {
        return Ok(resources);
    };
    seed_params(sheet, start, resources, row)
}

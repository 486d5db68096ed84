// What the layouts of container facts cost.
ghost use Rattle.std.specs.Prelude.{◌≡◌};
ghost use Rattle.model.specs.Tables.{fact_in};
ghost use Rattle.model.specs.Parameters.{charge_layout, charge_layouts, charge_instruction_facts};
ghost use Rattle.budget.specs.Outcome.{as_spent};

use budget::{Outcome, charge_bytes, metered};
use fact_row::instruction_fact;
use model::{FactCell, VerifierResources};
use sheet_fields::Sheet;

// "slot kind 1": a byte for each slot of the layout.
fn charge_layout(sheet: &Sheet, layout: usize, resources: VerifierResources) -> Outcome
    ensures { as_spent result ≡ charge_layout sheet.now.bytes.now layout resources }
{
    let slots = sheet.layout_length(layout) as u64;
    metered(5, resources, charge_bytes(resources, slots))
}

// A map charges its key layout, then its value layout; any other known fact its one. The kind and both layouts are read from the cell's numbers,
// which are what C reads of a fact.
pub fn charge_layouts(sheet: &Sheet, cell: FactCell, resources: VerifierResources) -> Outcome
    ensures { as_spent result ≡ charge_layouts sheet.now.bytes.now (fact_in cell) resources }
{
    if cell.kind < 2 {
        return Ok(resources);
    }
    let a = (cell.value / 65536) as usize;
    let b = (cell.value % 65536) as usize;
    let first = charge_layout(sheet, a, resources);
    if cell.kind != 2 {
        return first;
    }
    charge_layout(sheet, b, first?)
}

// The layout bytes of all notes' facts, in code order, also where the instruction is not reachable or its target not tracked.
pub fn charge_instruction_facts(sheet: &Sheet, resources: VerifierResources) -> Outcome
    ensures { as_spent result ≡ charge_instruction_facts sheet.now.bytes.now resources }
{
    let n = sheet.sizes.code_count;
    let mut left = resources;
    for pc in 0..n {
        let op = sheet.instruction(pc).op;
        left = charge_layouts(sheet, instruction_fact(sheet, pc, op), left)?;
    }
    Ok(left)
}

// "Order: flow graph, dependencies, ..": the charges of `FunctionCfg::build` and of `FactDependencyGraph::build`.
ghost use Rattle.std.specs.Prelude.{◌≡◌, ◌≤◌};
ghost use Rattle.model.specs.Analyses.{flow_of};
ghost use Rattle.model.specs.Dependencies.{charge_instruction, charge_dependencies};
ghost use Rattle.budget.specs.Outcome.{as_spent};
ghost use Rattle.closure_edges.specs.GraphCharges.{charge_graph};

use crate::edges::{copy_work, edge_count};
use budget::{Outcome, charge_bytes, charge_edges, charge_work, metered};
use model::{Instruction, VerifierResources};
use sheet_fields::Sheet;

// "successor record 24": bytes 24 × n, then work n.
fn charge_flow(sheet: &Sheet, resources: VerifierResources) -> Outcome
    ensures { as_spent result ≡ flow_of sheet.now.sizes.code_count resources }
{
    let n = sheet.sizes.code_count as u64;
    let left = metered(1, resources, charge_bytes(resources, n * 24))?;
    metered(1, left, charge_work(left, n))
}

// A CopyN's work, in full, then its edges: "dependency 4".
fn charge_instruction(inst: Instruction, l: usize, resources: VerifierResources) -> Outcome
    ensures { as_spent result ≡ charge_instruction l inst resources }
{
    let left = metered(2, resources, charge_work(resources, copy_work(inst)))?;
    charge_edges(2, left, edge_count(inst, l))
}

// The charges of all instructions, in code order.
fn charge_dependencies(sheet: &Sheet, resources: VerifierResources) -> Outcome
    ensures { as_spent result ≡ charge_dependencies sheet.now.bytes.now resources }
{
    let mut left = resources;
    for pc in 0..sheet.sizes.code_count {
        left = charge_instruction(sheet.instruction(pc), sheet.sizes.local_slots, left)?;
    }
    Ok(left)
}

// Both, before any analysis: "Order: flow graph, dependencies"
pub fn charge_graph(sheet: &Sheet, resources: VerifierResources) -> Outcome
    ensures { as_spent result ≡ charge_graph sheet.now.bytes.now resources }
{
    let left = charge_flow(sheet, resources)?;
    charge_dependencies(sheet, left)
}

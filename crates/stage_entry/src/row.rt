// The first row of a run.
ghost use Rattle.std.specs.Prelude.{false, ◌<◌, length};
ghost use Rattle.model.specs.Analyses.{container_row, first_row};
ghost use Rattle.fact_row.specs.Changed.{RowZero};
ghost use Rattle.stage_entry.specs.First.{RowLeft};

use crate::layouts::charge_instruction_facts;
use crate::seeds::param_row;
use budget::Outcome;
use fact_row::FactRow;
use model::{AnalysisKind, VerifierResources};
use sheet_fields::Sheet;

// That a row is zero is asked, here and of `param_row`, and no type says it: it holds only until the first fact is set.
// "for containers with the Parameters facts in it": the parameters' charges, then those of the notes' facts.
fn container_row(sheet: &Sheet, resources: VerifierResources, row: &mut FactRow) -> Outcome
    requires { RowZero row.old }
    ensures { RowLeft (container_row false sheet.now.bytes.now row.old.slots.now resources) result row.old row.new }
{
    let left = param_row(sheet, resources, row)?;
    let charged = charge_instruction_facts(sheet, left);
    if charged.is_err() {
        row.clear();
    }
    charged
}

// The first row of an analysis with its charges, in a row that is zero; a refusal leaves it zero.
pub fn first_row(
    which: AnalysisKind,
    sheet: &Sheet,
    resources: VerifierResources,
    row: &mut FactRow,
) -> Outcome
    requires { RowZero row.old × (0 < sheet.now.sizes.code_count) × (0 < length row.old.slots.now) }
    ensures { RowLeft (first_row which sheet.now.bytes.now row.old.slots.now resources) result row.old row.new }
{
    match which {
        AnalysisKind::Constant => Ok(resources),
        AnalysisKind::IndexCheck => Ok(resources),
        AnalysisKind::Container => container_row(sheet, resources, row),
    }
}

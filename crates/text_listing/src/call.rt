// The text of a whole call.
ghost use Rattle.std.specs.Prelude.{◌≤◌};
ghost use Rattle.model.specs.declared.AnalysisKind.{AnalysisKind};
ghost use Rattle.text_lines.specs.Page.{HasRoom, Written};
ghost use Rattle.text_facts.specs.Text.{fact_text_by};
ghost use Rattle.text_listing.specs.Answer.{TablesListable, text_by};

use crate::answer::{answer_lines, last_line};
use lookup::Tables;
use model::{AnalysisKind, Answer};
use text_facts::FactPrinter;
use text_lines::Page;

// The three analyses in their order, and the last line: of a call's answer and the tables that it left.
pub fn call_lines(
    answer: Answer,
    classes: &[u16],
    n: usize,
    constants: &Tables<'_>,
    index: &Tables<'_>,
    containers: &Tables<'_>,
    page: &mut Page<'_>,
)
    requires { TablesListable answer n constants.now index.now containers.now × (n ≤ 256) × HasRoom 2187530 page.old }
    ensures { Written 2187530 (text_by (λ which. fact_text_by which classes.now) n answer constants.now index.now containers.now) page.old page.new }
{
    let constant = FactPrinter {
        which: AnalysisKind::Constant,
        classes,
    };
    answer_lines(&constant, answer, n, constants, page);
    let index_check = FactPrinter {
        which: AnalysisKind::IndexCheck,
        classes,
    };
    answer_lines(&index_check, answer, n, index, page);
    let container = FactPrinter {
        which: AnalysisKind::Container,
        classes,
    };
    answer_lines(&container, answer, n, containers, page);
    last_line(answer, page);
}

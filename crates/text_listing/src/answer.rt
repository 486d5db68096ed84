// What is printed of a call's answer: for one with facts, an analysis after the other and what is left; for a refusal one line.
ghost use Rattle.std.specs.Prelude.{◌≡◌, ◌≤◌, length};
ghost use Rattle.text_lines.specs.Page.{HasRoom, Written};
ghost use Rattle.text_facts.specs.Text.{fact_text_by};
ghost use Rattle.text_listing.specs.Rows.{printed_analysis};
ghost use Rattle.text_listing.specs.Answer.{Listable, AnswerListable, choose, answer_part, last_line};

use crate::rows::rows_lines;
use lookup::Tables;
use model::{AnalysisKind, Answer, Counts};
use text_facts::FactPrinter;
use text_lines::Page;

// "Heads: analysis, n, s, pops.", and behind it the rows.
// The bounds of n and of the slots are asked here and below: with them the lines fit on the page. They are those of the caller's arrays, and a type for
// each bounded number would be no plainer.
fn analysis_lines(
    printer: &FactPrinter<'_>,
    n: usize,
    counts: Counts,
    tables: &Tables<'_>,
    page: &mut Page<'_>,
)
    requires { (n ≤ 256) × (length tables.now.slots ≤ 32) × Listable n counts tables.now × HasRoom 729161 page.old }
    ensures { Written 729161 (printed_analysis printer.now.which (fact_text_by printer.now.which printer.now.classes.now) n counts tables.now) page.old page.new }
{
    page.head_line(printer.which, n as u64, counts.tracked, counts.pops);
    rows_lines(printer, n, counts.tracked as usize, tables, page);
}

// The counts of an analysis, of the three that a call answers.
#[tactic(auto, unfolding(crate::specs::Answer::choose))]
fn counts_of(which: AnalysisKind, constant: Counts, index: Counts, container: Counts) -> Counts
    ensures { result ≡ choose which constant index container }
{
    match which {
        AnalysisKind::Constant => constant,
        AnalysisKind::IndexCheck => index,
        AnalysisKind::Container => container,
    }
}

// The lines of an analysis of n instructions from the answer of a call and the table that it left: none unless the answer has facts. Layouts are
// printed by their classes. 73 bytes of head at most, and 89 for each of at most 256 × 32 cells.
pub fn answer_lines(
    printer: &FactPrinter<'_>,
    answer: Answer,
    n: usize,
    tables: &Tables<'_>,
    page: &mut Page<'_>,
)
    requires { (n ≤ 256) × (length tables.now.slots ≤ 32) × AnswerListable printer.now.which answer n tables.now × HasRoom 729161 page.old }
    ensures { Written 729161 (answer_part printer.now.which (fact_text_by printer.now.which printer.now.classes.now) n answer tables.now) page.old page.new }
{
    if let Answer::Analyzed {
        constant,
        index,
        container,
        left: _,
    } = answer
    {
        let counts = counts_of(printer.which, constant, index, container);
        analysis_lines(printer, n, counts, tables, page);
    }
}

// The last line: what is left, or the one line of a refusal.
pub fn last_line(answer: Answer, page: &mut Page<'_>)
    requires { HasRoom 47 page.old }
    ensures { Written 47 (last_line answer) page.old page.new }
{
    match answer {
        Answer::Analyzed {
            constant: _,
            index: _,
            container: _,
            left,
        } => page.left_line(left),
        Answer::Invalid { question, left: _ } => page.refused_line(question.number()),
        Answer::OverBudget {
            stage: _,
            requested: _,
            remaining: _,
            left: _,
        } => page.refused_line(7),
        Answer::NoRoom { left: _ } => page.too_large(),
    }
}

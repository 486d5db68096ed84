// Runs the leaves on corners and prints a line for each answer: questions 1 to 5 of a sheet, and of one that they accept the successors of an
// instruction and the slots that it writes. The cases come from standard input; oracle/corners.py writes them and the lines that must come out.
//
// A case is a name, a sheet, and questions about it. Every function that reads or writes answers an error behind the last case, where an input is none,
// and after a read or a write that failed, so that nothing is printed behind a gap.
#![tactic(auto)]

ghost use Rattle.sheet.specs.Measured.{Accepted};

use check_corner_text::{Head, Question, accepted_line, answer_line, refused_corner_line};
use check_input::read_front;
use sheet_fields::Sheet;
use sheet_index::first_ranges;
use sheet_questions::check_sheet;
use std::io;
use std::io::{Read, Write};
use text_lines::Page;
use transfer_written::RangedSheet;

// A proved loop has to end, and nothing says that the input does. So its turns are bounded, by a number that no run uses up. The first error ends the
// lines, and is not told: so does the input's end, and the status is 0 either way.
// The loop stands in check_listings and check_replay too: a function for all would take what is repeated as a closure, and its contract would
// need a definition of the calls up to the first error, with an invariant and its proof.
fn main(rt: HostRuntime) {
    let mut input = rt.stdin();
    let mut output = rt.stdout();
    for _ in 0..u64::MAX {
        if answer_case(&mut input, &mut output).is_err() {
            return;
        }
    }
}

// Reads a case and prints its lines.
// Reader and writer go as two parameters: `read_front` takes one and `write_all` the other, so a struct of both would be taken apart wherever something is
// read or written, and be no plainer. Buffers are arrays, here and below, since there is no heap.
fn answer_case<R: Read, W: Write>(input: &mut R, output: &mut W) -> io::Result<()> {
    let mut bytes = [0u8; 8];
    read_front(input, &mut bytes, 8)?;
    let head = Head::from(bytes);
    print_name(input, output, head.name)?;
    answer_sheet(input, output, head.sheet, head.questions)
}

// Copies the name out. It differs from `print_heading` of check_listings in the bytes behind the name: one function for both would be
// public, and no contract can say what it reads or writes.
fn print_name<R: Read, W: Write>(input: &mut R, output: &mut W, length: usize) -> io::Result<()> {
    let mut name = [0u8; 4096];
    read_front(input, &mut name, length)?;
    output.write_all(&name[..length])?;
    Ok(())
}

// Reads the sheet.
fn answer_sheet<R: Read, W: Write>(
    input: &mut R,
    output: &mut W,
    length: usize,
    questions: u16,
) -> io::Result<()> {
    let mut bytes = [0u8; 131072];
    read_front(input, &mut bytes, length)?;
    check_and_answer(input, output, &bytes[..length], questions)
}

// A sheet that is refused can be asked nothing more.
fn check_and_answer<R: Read, W: Write>(
    input: &mut R,
    output: &mut W,
    bytes: &[u8],
    questions: u16,
) -> io::Result<()> {
    let checked = check_sheet(bytes);
    print_checked(output, checked)?;
    match checked {
        Ok(sheet) => answer_accepted(input, output, &sheet, questions),
        Err(_) if questions == 0 => Ok(()),
        Err(_) => Err(io::Error::from(io::ErrorKind::InvalidData)),
    }
}

// What questions 1 to 5 say of a sheet.
fn print_checked<W: Write>(
    output: &mut W,
    checked: Result<Sheet<'_>, model::Question>,
) -> io::Result<()> {
    let mut line = [0u8; 256];
    let mut page = Page::new(&mut line);
    match checked {
        Ok(sheet) => accepted_line(sheet.sizes, &mut page),
        Err(question) => refused_corner_line(question.number(), &mut page),
    }
    let count = page.finished();
    output.write_all(&line[..count])?;
    Ok(())
}

fn answer_accepted<R: Read, W: Write>(
    input: &mut R,
    output: &mut W,
    sheet: &Sheet,
    questions: u16,
) -> io::Result<()>
    requires { Accepted sheet.now.bytes.now sheet.now.sizes }
{
    let mut firsts = [0u16; 4096];
    first_ranges(sheet, &mut firsts);
    let ranged = RangedSheet {
        sheet,
        firsts: &firsts,
    };
    for _ in 0..questions {
        answer_next(input, output, &ranged)?;
    }
    Ok(())
}

// Reads a question and prints its answer, if the instruction is one of the code and what is asked is known.
fn answer_next<R: Read, W: Write>(
    input: &mut R,
    output: &mut W,
    ranged: &RangedSheet,
) -> io::Result<()> {
    let mut bytes = [0u8; 16];
    read_front(input, &mut bytes, 16)?;
    let question = Question::from(bytes);
    if ranged.sheet.sizes.code_count <= question.pc || question.asks.is_err() {
        return Err(io::Error::from(io::ErrorKind::InvalidData));
    }
    let mut line = [0u8; 256];
    let mut page = Page::new(&mut line);
    answer_line(ranged, question, &mut page);
    let count = page.finished();
    output.write_all(&line[..count])?;
    Ok(())
}

// The lines that are printed.
ghost use Rattle.text_lines.specs.Page.{HasRoom, Written};
ghost use Rattle.check_corner_text.specs.Lines.{refused_corner_line, accepted_line, successors_line, yes_or_no, writes_line, index_writes_line};

use model::{FactCell, InstructionSuccessors};
use sheet::Sizes;
use text_lines::Page;

// The number of the question that refuses a sheet; any number, since a narrower type would ask more of callers.
pub fn refused_corner_line(question: u8, page: &mut Page<'_>)
    requires { HasRoom 31 page.old }
    ensures { Written 31 (refused_corner_line question) page.old page.new }
{
    page.put_numbered_line(b": refused", &[question as u64]);
}

// The ten sizes of a sheet that is accepted.
pub fn accepted_line(sizes: Sizes, page: &mut Page<'_>)
    requires { HasRoom 221 page.old }
    ensures { Written 221 (accepted_line sizes) page.old page.new }
{
    let numbers = [
        sizes.code_count as u64,
        sizes.range_count as u64,
        sizes.constant_count as u64,
        sizes.param_count as u64,
        sizes.layout_count as u64,
        sizes.slot_kind_count as u64,
        sizes.local_slots as u64,
        sizes.param_slots as u64,
        sizes.recv_slots as u64,
        sizes.is_closure as u64,
    ];
    page.put_numbered_line(b": accepted", &numbers);
}

// The successors of the instruction at pc, in order, and how the record is filled behind them.
pub fn successors_line(pc: usize, successors: InstructionSuccessors, page: &mut Page<'_>)
    requires { HasRoom 96 page.old }
    ensures { Written 96 (successors_line pc successors) page.old page.new }
{
    let pcs = successors.pcs;
    let numbers = [successors.len as u64, pcs[0] as u64, pcs[1] as u64];
    page.put_numbered(b"successors", &[pc as u64]);
    page.put_numbered_line(b":", &numbers);
}

// The answer at the end of a line.
fn put_yes_or_no(answer: bool, page: &mut Page<'_>)
    requires { HasRoom 6 page.old }
    ensures { Written 6 (yes_or_no answer) page.old page.new }
{
    if answer {
        page.put(b": yes\n");
    } else {
        page.put(b": no\n");
    }
}

// Whether the instruction at pc writes the slot.
pub fn writes_line(pc: usize, slot: u16, is_written: bool, page: &mut Page<'_>)
    requires { HasRoom 54 page.old }
    ensures { Written 54 (writes_line pc slot is_written) page.old page.new }
{
    page.put_numbered(b"writes", &[pc as u64, slot as u64]);
    put_yes_or_no(is_written, page);
}

// The same in the index analysis, with the fact in b.
pub fn index_writes_line(
    pc: usize,
    before: FactCell,
    slot: u16,
    is_written: bool,
    page: &mut Page<'_>,
)
    requires { HasRoom 102 page.old }
    ensures { Written 102 (index_writes_line pc before slot is_written) page.old page.new }
{
    let numbers = [pc as u64, before.kind as u64, before.value, slot as u64];
    page.put_numbered(b"index writes", &numbers);
    put_yes_or_no(is_written, page);
}

// Calls `analyze` on every recorded sheet and budget, with buffers that are as long as needed, longer, and each one short, and prints a line for each:
// the numbers of its first answer, and a checksum over all that its calls answer and leave. The file stdout has the lines that the Rust gives;
// oracle/README.md describes the input and the lines, and the command that tells where a line differs.
#![tactic(auto)]

use check_input::read_front;
use line::put_line;
use sheet::Number;
use std::io;
use std::io::{Read, Write};

mod call;
mod calls;
mod line;

// A proved loop has to end, and nothing says that the input does. So its turns are bounded, by a number that no run uses up. The first error ends the
// lines, and is not told: so does the input's end, and the status is 0 either way.
// The loop stands in check_corners and check_listings too: a function for all would take what is repeated as a closure, and its contract would
// need a definition of the calls up to the first error, with an invariant and its proof.
fn main(rt: HostRuntime) {
    let mut input = rt.stdin();
    let mut output = rt.stdout();
    for _ in 0..u64::MAX {
        if replay_next(&mut input, &mut output).is_err() {
            return;
        }
    }
}

// Reads the head of a recorded sheet and the sheet, and writes its line. Nothing follows a gap.
// Buffers are arrays, since there is no heap.
fn replay_next<R: Read, W: Write>(input: &mut R, output: &mut W) -> io::Result<()> {
    let mut head = [0u8; 88];
    read_front(input, &mut head, 88)?;
    let length = u32::read(&head, 0) as usize;
    // the longest recorded sheet has 16,442 bytes
    let mut sheet = [0u8; 20480];
    read_front(input, &mut sheet, length)?;
    let mut text = [0u8; 289];
    let end = put_line(&head, &sheet[..length], &mut text);
    output.write_all(&text[..end])?;
    Ok(())
}

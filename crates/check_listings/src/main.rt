// Writes the listing of each sheet on standard input, as `facts` writes it for one, with its name above it. oracle/listings.py makes the sheets and
// the lines that must come out.
#![tactic(auto)]

use check_input::read_front;
use facts_report::list;
use sheet::Number;
use std::io;
use std::io::{Read, Write};

// A proved loop has to end, and nothing says that the input does. So its turns are bounded, by a number that no run uses up. The first error ends the
// listings, and is not told: so does the input's end, and the status is 0 either way.
// The loop stands in check_corners and check_replay too: a function for all would take what is repeated as a closure, and its contract would
// need a definition of the calls up to the first error, with an invariant and its proof.
fn main(rt: HostRuntime) {
    let mut input = rt.stdin();
    let mut output = rt.stdout();
    for _ in 0..u64::MAX {
        if list_next(&mut input, &mut output).is_err() {
            return;
        }
    }
}

// A case begins with 8 bytes: the length of its name and that of its sheet (32-bit each).
// Reader and writer go as two parameters: `read_front` takes one and `write_all` the other, so a struct of both would be taken apart wherever something is
// read or written, and be no plainer. Buffers are arrays, here and below, since there is no heap.
fn list_next<R: Read, W: Write>(input: &mut R, output: &mut W) -> io::Result<()> {
    let mut head = [0u8; 8];
    read_front(input, &mut head, 8)?;
    print_heading(input, output, u32::read(&head, 0) as usize)?;
    list_sheet(input, output, u32::read(&head, 4) as usize)
}

// Copies the name out, as a line. It differs from `print_name` of check_corners in the bytes behind the name: one function for both would be
// public, and no contract can say what it reads or writes.
fn print_heading<R: Read, W: Write>(
    input: &mut R,
    output: &mut W,
    length: usize,
) -> io::Result<()> {
    let mut name = [0u8; 4096];
    read_front(input, &mut name, length)?;
    output.write_all(&name[..length])?;
    output.write_all(b":\n")?;
    Ok(())
}

// Writes the listing of a sheet, and nothing behind a gap.
fn list_sheet<R: Read, W: Write>(input: &mut R, output: &mut W, length: usize) -> io::Result<()> {
    // One byte more than the longest sheet that is not too large: of a longer input the rest may be left unread.
    let mut sheet = [0u8; 65537];
    read_front(input, &mut sheet, length)?;
    let mut text = [0u8; 2187530];
    let end = list(&sheet[..length], &mut text);
    output.write_all(&text[..end])?;
    Ok(())
}

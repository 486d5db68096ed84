// Lists the facts of the sheet on standard input, or nothing where it cannot be read. The listing is written whole, or up to the first write that fails.
#![tactic(auto)]

use check_input::read_whole;
use facts_report::list;
use std::io;
use std::io::{Read, Write};

// An error is not told, and the status is 0 all the same: bin/facts sees whether a listing is whole.
fn main(rt: HostRuntime) {
    let _ = list_input(&mut rt.stdin(), &mut rt.stdout());
}

// Nothing is written where the sheet did not come whole. A write that a signal interrupts before it moves a byte is made again.
// Buffers are arrays, since there is no heap.
fn list_input<R: Read, W: Write>(input: &mut R, output: &mut W) -> io::Result<()> {
    // One byte more than the longest sheet that is not too large: of a longer input the rest may be left unread.
    let mut sheet = [0u8; 65537];
    let count = read_whole(input, &mut sheet)?;
    let mut text = [0u8; 2187530];
    let length = list(&sheet[..count], &mut text);
    output.write_all(&text[..length])?;
    Ok(())
}

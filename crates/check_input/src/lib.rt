// Bytes from a reader: standard input, in the programs. What comes, how much of it, and whether a read fails, no contract can say: that of std's `read`
// tells of standard input only how many bytes it may have moved. So the contracts here determine what lies behind the bytes that came, what is made of an
// answer of `read` (`answer_of`) and of several (`so_far`), and that a read fails only where there was room for more. That the count, the failure and the
// bytes are those of the calls of `read` is to be read in the bodies of `read_to`, `read_whole` and `read_front`.
#![tactic(auto)]

ghost use Rattle.std.specs.Prelude.{◌≡◌, ◌+◌, ◌<◌, ◌≤◌, min, length, take, drop, IfOk, IfErr, OnOk, MatchResult, Ok, Err};
ghost use Rattle.io.specs.Counts.{IsPrefixLen};

pub use sheet::{u16_of, u32_of, u64_of};
use std::io;
use std::io::Read;
use thiserror::Error;

// A read that failed or, where so many bytes were asked for, an input that ended before; count bytes had come.
#[derive(Clone, Copy, Debug, PartialEq, Eq, Drop, Error)]
#[error("a read failed behind {count} bytes")]
pub struct FailedRead {
    pub count: usize,
}

impl From<FailedRead> for io::Error {
    fn from(_: FailedRead) -> io::Error {
        io::Error::from(io::ErrorKind::UnexpectedEof)
    }
}

// How many bytes came, 0 at the end of the input. A call that a signal interrupts before it moves a byte counts as one that failed.
fn answer_of(answer: io::Result<usize>, most: usize) -> Result<usize, FailedRead>
    ensures is { MatchResult answer (λ n. result ≡ Ok (min n most)) (λ _. result ≡ Err (record { count = 0 })) }
    ensures room { IfOk result (λ n. n ≤ most) }
{
    match answer {
        Ok(n) => Ok(n.min(most)),
        Err(_) => Err(FailedRead { count: 0 }),
    }
}

// What has come when a piece follows count bytes.
fn so_far(count: usize, piece: Result<usize, FailedRead>) -> Result<usize, FailedRead>
    requires { MatchResult piece (λ n. count + n < 18446744073709551616) (λ failed. count + failed.count < 18446744073709551616) }
    ensures { MatchResult piece (λ n. result ≡ Ok (count + n)) (λ failed. result ≡ Err (record { count = count + failed.count })) }
{
    match piece {
        Ok(n) => Ok(count + n),
        Err(failed) => Err(FailedRead {
            count: count + failed.count,
        }),
    }
}

// One read into the buffer from a place on, by way of chunk, so that the rest of the buffer stays as it is.
fn read_to<R: Read>(
    reader: &mut R,
    buffer: &mut [u8],
    to: usize,
    chunk: &mut [u8],
) -> Result<usize, FailedRead>
    requires { to ≤ length buffer.old }
    ensures before { take to buffer.new ≡ take to buffer.old }
    ensures came { IfOk result (λ n. (to + n ≤ length buffer.old) × (drop (to + n) buffer.new ≡ drop (to + n) buffer.old)) }
    ensures failed { IfErr result (λ failed. (failed.count ≡ 0) × (buffer.new ≡ buffer.old)) }
{
    let most = chunk.len().min(buffer.len() - to);
    let count = answer_of(reader.read(&mut chunk[..most]), most)?;
    buffer[to..to + count].copy_from_slice(&chunk[..count]);
    Ok(count)
}

// Reads until the buffer is full or the input ends, and answers how many bytes came. Behind them the buffer stays as it was. The loop is no count of
// turns: a read moves as much as it will, and std's own `read_to_end` needs a Vec.
pub fn read_whole<R: Read>(reader: &mut R, buffer: &mut [u8]) -> Result<usize, FailedRead>
    ensures came { IfOk result (λ count. IsPrefixLen count buffer.new × (drop count buffer.new ≡ drop count buffer.old)) }
    ensures failed { IfErr result (λ failed. IsPrefixLen failed.count buffer.new
        × (drop failed.count buffer.new ≡ drop failed.count buffer.old)
        × (failed.count < length buffer.new)) }
{
    let mut chunk = [0u8; 4096];
    let mut done = 0;
    while done < buffer.len() {
        let count = so_far(done, read_to(reader, buffer, done, &mut chunk))?;
        if count == done {
            break;
        }
        done = count;
    }
    Ok(done)
}

// Reads count bytes to the front of the buffer. Fewer came where the input ends or a read fails, and none where they do not fit.
#[tactic(auto, using(crate::proofs::BufferReads::front_read))]
pub fn read_front<R: Read>(
    reader: &mut R,
    buffer: &mut [u8],
    count: usize,
) -> Result<(), FailedRead>
    ensures came { OnOk result (IsPrefixLen count buffer.new × (drop count buffer.new ≡ drop count buffer.old)) }
    ensures failed { IfErr result (λ failed. IsPrefixLen failed.count buffer.new
        × (failed.count < count)
        × (drop failed.count buffer.new ≡ drop failed.count buffer.old)
        × (length buffer.old < count → failed.count ≡ 0)) }
{
    if buffer.len() < count {
        return Err(FailedRead { count: 0 });
    }
    match read_whole(reader, &mut buffer[..count]) {
        Ok(came) if came < count => Err(FailedRead { count: came }),
        Ok(_) => Ok(()),
        Err(failed) => Err(failed),
    }
}

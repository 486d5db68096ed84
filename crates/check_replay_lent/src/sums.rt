// Numbers put into a checksum. No sum wraps: a remainder is below 2^32, and so is a factor.
ghost use Rattle.std.specs.Prelude.{◌≡◌};
ghost use Rattle.model.specs.Call.{answer_numbered, table, scratch};
ghost use Rattle.model.specs.Interface.{twelve};
ghost use Rattle.check_replay_lent.specs.Checksum.{checksum_number, checksum_start, with_number, with_buffer, with_table, with_scratch};

use crate::Checksum;
use crate::element::Element;
use export_numbers::put_answer;
use model::Answer;

impl Checksum {
    // Before the first number.
    pub const START: Checksum = Checksum { low: 1, high: 1 };

    // With a number more.
    fn with_number(self, x: u64) -> Checksum
        ensures { result ≡ with_number self x }
    {
        let low = (self.low as u64 * 1103515245 + x % 4294967291) % 4294967291;
        let high = (self.high as u64 * 1812433253 + x % 4294967279) % 4294967279;
        Checksum {
            low: low as u32,
            high: high as u32,
        }
    }

    // With a buffer more: its length, and every element.
    fn with<T: Element>(self, buffer: &[T]) -> Checksum
        ensures { result ≡ with_buffer self (T.numbers buffer.now) }
    {
        let mut sum = self.with_number(buffer.len() as u64);
        for x in buffer {
            sum = sum.with_number(x.number());
        }
        sum
    }

    // With the twelve numbers of an answer more.
    pub fn with_answer(self, answer: Answer) -> Checksum
        ensures { result ≡ with_buffer self (twelve (answer_numbered answer)) }
    {
        let mut numbers = [0u64; 12];
        put_answer(answer, &mut numbers);
        self.with::<u64>(&numbers)
    }

    // With the four buffers of an analysis more. They are only read, so they are asked as shared slices: a LentTable lends for writing.
    pub fn with_table(self, slots: &[u16], present: &[u8], kinds: &[u8], values: &[u64]) -> Checksum
        ensures { result ≡ with_table self (table slots.now present.now kinds.now values.now) }
    {
        self.with(slots).with(present).with(kinds).with(values)
    }

    // With the five of the scratch more, which are only read too.
    pub fn with_scratch(
        self,
        marks: &[u8],
        stack: &[u16],
        row_kinds: &[u8],
        row_values: &[u64],
        work_list: &[u16],
    ) -> Checksum
        ensures { let lent = scratch marks.now stack.now row_kinds.now row_values.now work_list.now in
            result ≡ with_scratch self lent }
    {
        self.with(marks)
            .with(stack)
            .with(row_kinds)
            .with(row_values)
            .with(work_list)
    }
}

// As one number.
impl From<Checksum> for u64 {
    ghost from_gives = { λ c n. n ≡ checksum_number c };

    fn from(checksum: Checksum) -> u64 {
        checksum.low as u64 + 4294967296 * checksum.high as u64
    }
}

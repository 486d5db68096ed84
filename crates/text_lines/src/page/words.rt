// Numbers, and words with numbers.
ghost use Rattle.std.specs.Prelude.{◌++◌, ◌+◌, ◌*◌, length};
ghost use Rattle.model.specs.Listing.{decimal, space};
ghost use Rattle.text_lines.specs.Text.{spaced_all, numbered, numbered_line};
ghost use Rattle.text_lines.specs.Page.{HasRoom, Written};

use super::Page;
use itoa::Buffer;

impl<'a> Page<'a> {
    // A number in decimal.
    pub fn put_decimal(&mut self, x: u64)
        requires { HasRoom 20 self.old }
        ensures { Written 20 (decimal x) self.old self.new }
    {
        let mut buffer = Buffer::new();
        let digits = buffer.format(x).as_bytes();
        self.put(digits);
    }

    // A space and a number.
    pub fn put_spaced(&mut self, x: u64)
        requires { HasRoom 21 self.old }
        ensures { Written 21 (space ++ decimal x) self.old self.new }
    {
        self.put(b" ");
        self.put_decimal(x);
    }

    // Numbers, each behind a space.
    fn put_numbers(&mut self, numbers: &[u64])
        requires { HasRoom (21 * length numbers.now) self.old }
        ensures { Written (21 * length numbers.now) (spaced_all numbers.now) self.old self.new }
    {
        for x in numbers {
            self.put_spaced(*x);
        }
    }

    // A word and numbers.
    pub fn put_numbered(&mut self, word: &[u8], numbers: &[u64])
        requires { HasRoom (length word.now + 21 * length numbers.now) self.old }
        ensures { let name = word.now in
            let given = numbers.now in
            Written (length name + 21 * length given) (numbered name given) self.old self.new }
    {
        self.put(word);
        self.put_numbers(numbers);
    }

    // The same, which end the line.
    pub fn put_numbered_line(&mut self, word: &[u8], numbers: &[u64])
        requires { HasRoom (length word.now + 21 * length numbers.now + 1) self.old }
        ensures { let name = word.now in
            let given = numbers.now in
            Written (length name + 21 * length given + 1) (numbered_line name given) self.old self.new }
    {
        self.put_numbered(word, numbers);
        self.put(b"\n");
    }
}

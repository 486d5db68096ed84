// A lent buffer and how much of it is written.
ghost use Rattle.std.specs.Prelude.{◌≡◌, ◌≤◌, length};

mod lines;
mod words;

// Texts are put by methods and not by Display: the contract of each asks for its room, and `fmt` would answer a Result that is never an error.
#[derive(Drop)]
pub struct Page<'a> {
    out: &'a mut [u8],
    at: usize,
    ghost within: { at ≤ length out.now },
}

impl<'a> Page<'a> {
    ghost use Rattle.text_lines.specs.Page.{HasRoom, Written, Begun};

    // Nothing is written yet.
    pub fn new(out: &'a mut [u8]) -> Page<'a>
        ensures { Begun 0 out.entry result }
    {
        Page::behind(0, out)
    }

    // What stands in front of a place counts as written.
    pub fn behind(at: usize, out: &'a mut [u8]) -> Page<'a>
        requires { at ≤ length out.old }
        ensures { Begun at out.entry result }
    {
        Page { out, at }
    }

    // A word.
    pub fn put(&mut self, word: &[u8])
        requires { HasRoom (length word.now) self.old }
        ensures { Written (length word.now) word.now self.old self.new }
    {
        let end = self.at + word.len();
        self.out[self.at..end].copy_from_slice(word);
        self.at = end;
    }

    // How much is written.
    pub fn finished(self) -> usize
        ensures count { result ≡ self.entry.at }
        ensures bytes { self.exit.0.now ≡ self.entry.out.now }
    {
        let Page { out: _, at } = self;
        at
    }
}

// Marks and stack of the closure: "mark 1, work slot 2" for each of L.
ghost use Rattle.closure_marks.specs.Room.{Room};

use crate::Candidates;

impl Candidates {
    ghost use Rattle.std.specs.Prelude.{◌≡◌, ◌≤◌, length};
    ghost use Rattle.closure_marks.specs.Marks.{slots_in};

    // How many they are.
    pub fn count(self) -> u64
        ensures { (result ≡ length (slots_in self)) × (result ≤ 2) }
    {
        match self {
            Candidates::None => 0,
            Candidates::One(_) => 1,
            Candidates::Two(_, _) => 2,
        }
    }
}

// The marks of a closure, and its stack, of which the first `top` entries are used.
#[derive(Drop)]
pub struct SlotMarks<'a> {
    pub marks: &'a mut [u8],
    pub stack: &'a mut [u16],
    pub top: usize,
    // the stack has room for every slot without a mark
    pub ghost room: { Room marks.now stack.now top },
}

impl SlotMarks<'_> {
    ghost use Rattle.std.specs.Prelude.{◌≡◌, ◌<◌};
    ghost use Rattle.model.specs.Closure.{mark};
    ghost use Rattle.closure_marks.specs.Marks.{Steps, Taken, slots_in, mark_all, held, store, store_all};

    // A slot without a mark gets one and goes on the stack. From L up there is none.
    fn mark(&mut self, slot: usize)
        ensures steps { Steps (mark slot) self.old self.new }
        ensures stored { held self.new ≡ store slot (held self.old) }
    {
        if slot < self.marks.len() && self.marks[slot] == 0 {
            self.marks[slot] = 1;
            self.stack[self.top] = slot as u16;
            self.top += 1;
        }
    }

    // The candidates, in order.
    pub fn mark_all(&mut self, candidates: Candidates)
        ensures steps { Steps (mark_all (slots_in candidates)) self.old self.new }
        ensures stored { held self.new ≡ store_all (slots_in candidates) (held self.old) }
    {
        match candidates {
            Candidates::None => {}
            Candidates::One(slot) => self.mark(slot),
            Candidates::Two(first, second) => {
                self.mark(first);
                self.mark(second);
            }
        }
    }

    // The slot on top is taken from the stack, and its place is zero again.
    pub fn take(&mut self) -> usize
        requires { 0 < self.old.top }
        ensures { Taken self.old self.new result }
    {
        let at = self.top - 1;
        let slot = self.stack[at] as usize;
        self.stack[at] = 0;
        self.top = at;
        slot
    }
}

// The marked slots, counted and written: "The result ascends."
ghost use Rattle.std.specs.Prelude.{◌≡◌, false, [], ◌++◌, ◌+◌, ◌<◌, ◌≤◌, eqb, length, drop};
ghost use Rattle.model.specs.Closure.{list_unless, places};
ghost use Rattle.closure_marks.specs.Slots.{stored_unless, fitted};

// 1 for a mark that is set.
#[tactic(auto, unfolding(model::specs::Closure::list_unless))]
fn one_if_set(mark: u8) -> usize
    ensures { (result ≡ length (list_unless (eqb mark 0) 0 [])) × (result ≤ 1) }
{
    if mark == 0 { 0 } else { 1 }
}

// How many slots are marked.
fn count_marks(marks: &[u8]) -> usize
    ensures { result ≡ length (places 0 marks.now) }
{
    let mut count = 0;
    for mark in marks {
        count += one_if_set(*mark);
    }
    count
}

// A slot whose mark is set goes to the next place.
// Both places are numbers: the loop reads the marks and writes the slots each at its own, and a slice cut anew each turn would be no plainer.
#[tactic(auto, unfolding(model::specs::Closure::list_unless, crate::specs::Slots::stored_unless))]
fn write_slot(mark: u8, slot: usize, slots: &mut [u16], at: usize) -> usize
    requires { (slot < 65536) × (at ≤ length slots.old) × (eqb mark 0 ≡ false → at < length slots.old) }
    ensures { (result ≡ at + length (list_unless (eqb mark 0) slot [])) × (slots.new ≡ stored_unless (eqb mark 0) slots.old at slot) }
{
    if mark == 0 {
        return at;
    }
    slots[at] = slot as u16;
    at + 1
}

// The s marked slots, in the first places. No mark behind the last of them is read: so the loop runs over places and not over marks. (A
// `for` over the marks needs the same test as a `break`, and there a turn too many would be no error that the proof refuses.)
fn write_marked_slots(marks: &[u8], slots: &mut [u16], s: usize)
    requires { (length marks.now ≤ 65535) × (length (places 0 marks.now) ≤ length slots.old) × (s ≡ length (places 0 marks.now)) }
    ensures { slots.new ≡ places 0 marks.now ++ drop (length (places 0 marks.now)) slots.old }
{
    let mut at = 0;
    let mut i = 0;
    while at < s {
        at = write_slot(marks[i], i, slots, at);
        i += 1;
    }
}

// How many slots are marked; they are written where they fit.
pub fn list_slots(marks: &[u8], slots: &mut [u16]) -> usize
    requires { length marks.now ≤ 65535 }
    ensures { (result ≡ length (places 0 marks.now)) × (slots.new ≡ fitted (places 0 marks.now) slots.old) }
{
    let s = count_marks(marks);
    if slots.len() < s {
        return s;
    }
    write_marked_slots(marks, slots, s);
    s
}

// The work list: "a list of instruction numbers". Its cells are read and written here alone; the laws (proofs/Listed) tell of it as a list.
// The lent buffer and the count of entries go side by side, and one loop alone holds them. A struct of both was tried, and proved: each of its
// methods, and the loop's invariant, then has to say besides that it still lends the same buffer, which makes both longer, for the same
// machine code. So it is no plainer.
#![tactic(auto)]

ghost use Rattle.std.specs.Prelude.{◌≡◌, ℕ, ◌+◌, ◌-◌, ◌≤◌, ◌<◌, ◌++◌, length, get_or, set, take, drop};
ghost use Rattle.model.specs.Call.{zeros};
ghost use Rattle.fixpoint_list.specs.Listed.{EachEntered};

// "the successor is added once, even if it is listed already". How many entries there are then.
pub fn enter(entry: usize, top: usize, work_list: &mut [u16]) -> usize
    requires { (top < length work_list.old) × (entry ≤ 65535) }
    ensures { (work_list.new ≡ set work_list.old top entry) × (result ≡ top + 1) }
{
    work_list[top] = entry as u16;
    top + 1
}

// Each of the entries is added, in order: they stand one behind the other from top on. How many there are then.
pub fn enter_each(entries: &[usize], top: usize, work_list: &mut [u16]) -> usize
    requires { (length entries.now + top ≤ length work_list.old) × ((i : ℕ) → i < length entries.now → get_or entries.now i 0 ≤ 65535) }
    ensures entered { EachEntered entries.now work_list.old top work_list.new result }
    ensures stored { (result ≡ top + length entries.now) × (work_list.new ≡ take top work_list.old ++ (entries.now ++ drop result work_list.old)) }
{
    let mut top = top;
    for &entry in entries {
        top = enter(entry, top, work_list);
    }
    top
}

// "takes the entry added last", of top entries.
pub fn take(top: usize, work_list: &mut [u16]) -> usize
    requires { (0 < top) × (top ≤ length work_list.old) }
    ensures { (result ≡ get_or work_list.old (top - 1) 0) × (work_list.new ≡ set work_list.old (top - 1) 0) }
{
    let last = top - 1;
    let entry = work_list[last] as usize;
    work_list[last] = 0;
    entry
}

// No entry is left.
pub fn clear(work_list: &mut [u16])
    ensures { work_list.new ≡ zeros work_list.old }
{
    memory::clear(work_list);
}

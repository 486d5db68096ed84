// Question 8.
ghost use Rattle.std.specs.Prelude.{◌≡◌, ◌≤◌};
ghost use Rattle.model.specs.Call.{work_list_room};
ghost use Rattle.stage_memory.specs.Room.{room_by};

// "with s and n above zero, the work list n × (1 + 2 × s)"
// The limits of n and s are asked here and below, so that no product wraps: the caller has them from a Sheet and its closure, and a type for each of the two
// numbers would be no plainer.
fn work_list_room(n: usize, s: usize, list: usize) -> bool
    requires { (n ≤ 4096) × (s ≤ 65535) }
    ensures { result ≡ work_list_room n s list }
{
    if n == 0 {
        return true;
    }
    if s == 0 {
        return true;
    }
    n * (1 + 2 * s) <= list
}

// "Are slots and the row scratch at least s long, present n, kinds and values n × s, and .. the work list n × (1 + 2 × s)?"
pub fn room_for(
    n: usize,
    s: usize,
    slots: usize,
    present: usize,
    kinds: usize,
    values: usize,
    row_kinds: usize,
    row_values: usize,
    list: usize,
) -> bool
    requires { (n ≤ 4096) × (s ≤ 65535) }
    ensures { result ≡ room_by n s slots present kinds values row_kinds row_values list }
{
    if slots < s {
        return false;
    }
    if row_kinds < s {
        return false;
    }
    if row_values < s {
        return false;
    }
    if present < n {
        return false;
    }
    let cells = n * s;
    if kinds < cells {
        return false;
    }
    if values < cells {
        return false;
    }
    work_list_room(n, s, list)
}

// Questions 2 and 3: the sizes, their limits, and where the arrays begin.
ghost use Rattle.std.specs.Prelude.{◌≡◌, ◌≤◌, length};
ghost use Rattle.model.specs.Sheet.{limits, within_limits};
ghost use Rattle.sheet.specs.Sizes.{places_of, sizes_of};

use sheet::{Places, Sizes, size_at};

const LIMITS: [usize; 10] = [4096, 16384, 4096, 256, 1024, 16384, 65535, 65535, 65535, 1];

// "Is every size within its limit?"
// The head's length is asked, here and below, by what reads it before there is a Sheet, which is made of what they answer.
pub fn within_limits(bytes: &[u8]) -> bool
    requires { 40 ≤ length bytes.now }
    ensures { result ≡ within_limits bytes.now 0 limits }
{
    for j in 0..10 {
        if LIMITS[j] < size_at(bytes, j) {
            return false;
        }
    }
    true
}

// Where the arrays begin. Sizes are below 2^32 here, so that no sum wraps whatever they are. Here and below no From: that takes any
// bytes, and these must be 40 at least, as question 1 asks.
fn places_of(bytes: &[u8]) -> Places
    requires { 40 ≤ length bytes.now }
    ensures { result ≡ places_of bytes.now }
{
    let n = size_at(bytes, 0);
    let w = size_at(bytes, 1);
    let k = size_at(bytes, 2);
    let p = size_at(bytes, 3);
    let y = size_at(bytes, 4);
    let ranges = 40 + 15 * n;
    let constants = ranges + 6 * w;
    let params = constants + 9 * k;
    let layouts = params + 7 * p;
    Places {
        note_kinds: 40 + 8 * n,
        note_as: 40 + 9 * n,
        note_bs: 40 + 11 * n,
        write_counts: 40 + 13 * n,
        range_starts: ranges,
        range_lengths: ranges + 2 * w,
        constant_kinds: constants,
        constant_values: constants + k,
        param_widths: params,
        param_kinds: params + 2 * p,
        param_as: params + 3 * p,
        param_bs: params + 5 * p,
        layout_lengths: layouts,
        slot_kinds: layouts + 2 * y,
    }
}

// The sizes, and where the arrays begin.
pub fn sizes_of(bytes: &[u8]) -> Sizes
    requires { 40 ≤ length bytes.now }
    ensures { result ≡ sizes_of bytes.now }
{
    let places = places_of(bytes);
    Sizes {
        code_count: size_at(bytes, 0),
        range_count: size_at(bytes, 1),
        constant_count: size_at(bytes, 2),
        param_count: size_at(bytes, 3),
        layout_count: size_at(bytes, 4),
        slot_kind_count: size_at(bytes, 5),
        local_slots: size_at(bytes, 6),
        param_slots: size_at(bytes, 7),
        recv_slots: size_at(bytes, 8),
        is_closure: size_at(bytes, 9),
        places,
    }
}

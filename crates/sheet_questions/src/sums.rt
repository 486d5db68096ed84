// Question 4: the sums of the write counts and of the layout lengths.
ghost use Rattle.std.specs.Prelude.{◌≡◌, ◌≤◌, ◌<◌, ℕ};
ghost use Rattle.model.specs.Count.{sum};
ghost use Rattle.model.specs.Sheet.{sums_match};

use sheet_fields::Sheet;

// The sum of what part gives of each number below count. The bound keeps it far from wrapping.
fn total<F: Fn(usize) -> u16>(count: usize, part: F) -> usize
    requires few { count ≤ 65536 }
    requires callable { (i : ℕ) → i < count → F.pre part i }
    ensures { (f : ℕ → ℕ) → ((i n : ℕ) → i < count → F.post part i n → n ≡ f i) → result ≡ sum f count }
{
    let mut sum = 0;
    for i in 0..count {
        sum += part(i) as usize;
    }
    sum
}

// "Do the write counts other than 65,535 sum to w, the layout lengths to q?"
pub fn sums_match(sheet: &Sheet) -> bool
    ensures { result ≡ sums_match sheet.now.bytes.now }
{
    let ranges = total(sheet.sizes.code_count, |pc| sheet.ranges_of(pc));
    if ranges != sheet.sizes.range_count {
        return false;
    }
    let slot_kinds = total(sheet.sizes.layout_count, |i| sheet.layout_length(i));
    slot_kinds == sheet.sizes.slot_kind_count
}

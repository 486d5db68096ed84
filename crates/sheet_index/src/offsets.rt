// What is found once a call, so that no later step adds up the sheet again.
ghost use Rattle.std.specs.Prelude.{◌≡◌, ◌≤◌, ◌<◌, ℕ, length};
ghost use Rattle.memory.specs.Front.{front};
ghost use Rattle.model.specs.Count.{sum};
ghost use Rattle.sheet.specs.Measured.{Accepted};
ghost use Rattle.sheet_index.specs.Tables.{first_ranges, layout_starts};

use sheet_fields::Sheet;

// For each number below count, the sum of what part gives of those before it.
fn sums_before<F: Fn(usize) -> u16>(count: usize, part: F, out: &mut [u16])
    requires room { count ≤ length out.old }
    requires callable { (i : ℕ) → i < count → F.pre part i }
    requires fits { (f : ℕ → ℕ) × ((i n : ℕ) → i < count → F.post part i n → n ≡ f i) × (sum f count < 65536) }
    ensures { (f : ℕ → ℕ) → ((i n : ℕ) → i < count → F.post part i n → n ≡ f i) → out.new ≡ front (sum f) count out.old }
{
    let mut sum = 0;
    for i in 0..count {
        out[i] = sum;
        sum += part(i);
    }
}

// The number of the first range of each instruction.
pub fn first_ranges(sheet: &Sheet, out: &mut [u16])
    requires { Accepted sheet.now.bytes.now sheet.now.sizes × (sheet.now.sizes.code_count ≤ length out.old) }
    ensures { out.new ≡ first_ranges sheet.now.bytes.now out.old }
{
    sums_before(sheet.sizes.code_count, |pc| sheet.ranges_of(pc), out);
}

// Where the slot kinds of each layout begin among the q. The loop goes over a copy of the struct: it would read a lent one anew for each layout,
// since what it writes might lie there.
pub fn layout_starts(sheet: &Sheet, out: &mut [u16])
    requires { Accepted sheet.now.bytes.now sheet.now.sizes × (sheet.now.sizes.layout_count ≤ length out.old) }
    ensures { out.new ≡ layout_starts sheet.now.bytes.now out.old }
{
    let sheet = *sheet;
    sums_before(sheet.sizes.layout_count, |i| sheet.layout_length(i), out);
}

// Little-endian numbers in a slice of bytes. Each read compiles to one load.
// The place is a number, as in the definitions (`u16 bytes at`): a slice from it on would be cut anew for each read, and be no plainer.
ghost use Rattle.std.specs.Prelude.{◌≡◌, ◌+◌, ◌*◌, ◌<◌, ◌≤◌, List, ℕ, length};
ghost use Rattle.model.specs.Bytes.{byte, u16, u32, u64};

// A number of WIDTH bytes, the lowest first.
pub trait Number {
    const WIDTH: usize;

    ghost WIDTH: { ℕ };

    // The number at a place.
    ghost number: { List ℕ → ℕ → Self };

    fn read(bytes: &[u8], at: usize) -> Self
        requires { at + WIDTH ≤ length bytes.now }
        ensures { result ≡ number bytes.now at };
}

impl Number for u8 {
    const WIDTH: usize = 1;

    ghost WIDTH = { 1 };

    ghost number = { byte };

    #[tactic(auto, unfolding(model::specs::Bytes::byte))]
    fn read(bytes: &[u8], at: usize) -> u8 {
        bytes[at]
    }
}

impl Number for u16 {
    const WIDTH: usize = 2;

    ghost WIDTH = { 2 };

    ghost number = { u16 };

    #[tactic(auto, unfolding(model::specs::Bytes::u16))]
    fn read(bytes: &[u8], at: usize) -> u16 {
        u16_of(u8::read(bytes, at), u8::read(bytes, at + 1))
    }
}

impl Number for u32 {
    const WIDTH: usize = 4;

    ghost WIDTH = { 4 };

    ghost number = { u32 };

    #[tactic(auto, unfolding(model::specs::Bytes::u32))]
    fn read(bytes: &[u8], at: usize) -> u32 {
        u32_of(u16::read(bytes, at), u16::read(bytes, at + 2))
    }
}

impl Number for u64 {
    const WIDTH: usize = 8;

    ghost WIDTH = { 8 };

    ghost number = { u64 };

    #[tactic(auto, unfolding(model::specs::Bytes::u64))]
    fn read(bytes: &[u8], at: usize) -> u64 {
        u64_of(u32::read(bytes, at), u32::read(bytes, at + 4))
    }
}

// Element i of an array that begins at a place.
pub fn element<T: Number>(bytes: &[u8], at: usize, i: usize) -> T
    requires { at + T.WIDTH * i + T.WIDTH ≤ length bytes.now }
    ensures { result ≡ T.number bytes.now (at + T.WIDTH * i) }
{
    T::read(bytes, at + T::WIDTH * i)
}

// A byte at 16 bits, with its bound, so that no proof has to look for the element that it came from.
fn wide_byte(x: u8) -> u16
    ensures { (result ≡ x) × (result < 256) }
{
    x as u16
}

// Three functions, since each joins halves of another type: one that takes the type would be no plainer.
// 16 bits from two bytes.
pub fn u16_of(low: u8, high: u8) -> u16
    ensures { result ≡ low + 256 * high }
{
    wide_byte(low) + 256 * wide_byte(high)
}

// 32 bits from two halves.
pub fn u32_of(low: u16, high: u16) -> u32
    ensures { result ≡ low + 65536 * high }
{
    low as u32 + 65536 * high as u32
}

// 64 bits from two halves.
pub fn u64_of(low: u32, high: u32) -> u64
    ensures { result ≡ low + 4294967296 * high }
{
    low as u64 + 4294967296 * high as u64
}

// The sheet: its sizes, and where its arrays begin.
ghost use Rattle.std.specs.Prelude.{◌≡◌, ◌<◌, ◌≤◌, length};
ghost use Rattle.model.specs.Sheet.{size};

use crate::bytes::element;

// The size j, which may be any 32 bits until its limit has been asked.
#[tactic(auto, unfolding(model::specs::Sheet::size))]
pub fn size_at(sheet: &[u8], j: usize) -> usize
    requires { (40 ≤ length sheet.now) × (j < 10) }
    ensures { (result ≡ size sheet.now j) × (result < 4294967296) }
{
    element::<u32>(sheet, 0, j) as usize
}

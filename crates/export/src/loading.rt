// For a loader: how much memory a call needs, which layouts are equal, and which interface this is.
ghost use Rattle.std.specs.Prelude.{◌≡◌, leb, length};
ghost use Rattle.model.specs.Interface.{looked};
ghost use Rattle.model.specs.Room.{room, room_of, lowest_of, interface_version};

use export_loader::{lowest_layout, room_of};

// The header and bindings/rust name it too.
const VERSION: u64 = 1;

// What refuses is answered by its number, since C has no Result.

// 0 with n and the s of each analysis in the first 4 entries of out, by the closures alone and without a budget: marks and stack are zero then. 1 to
// 6; 255 first, where out has fewer than 4 entries. But for 0, nothing lent changes.
#[unsafe(no_mangle)]
pub extern "C" fn vo_facts_room(
    sheet: &[u8],
    marks: &mut [u8],
    stack: &mut [u16],
    out: &mut [u64],
) -> u8
    ensures { room result marks.new stack.new out.new
        ≡ room_of (leb 4 (length out.old)) sheet.now marks.old stack.old out.old }
{
    room_of(sheet, marks, stack, out)
}

// 0 with the lowest number of a layout of equal content in the first entry of out; 1 to 5; 254 where the number names no layout; 255 first, where out
// has no entry. But for 0, out keeps its content.
#[unsafe(no_mangle)]
pub extern "C" fn vo_facts_lowest_layout(sheet: &[u8], layout: u64, out: &mut [u64]) -> u8
    ensures { looked result out.new ≡ lowest_of (leb 1 (length out.old)) sheet.now layout out.old }
{
    lowest_layout(sheet, layout, out)
}

// The number of this interface.
#[unsafe(no_mangle)]
pub extern "C" fn vo_facts_version() -> u64
    ensures { result ≡ interface_version }
{
    VERSION
}

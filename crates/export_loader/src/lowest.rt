// Which layouts are equal: those of one lowest number.
ghost use Rattle.std.specs.Prelude.{◌≡◌, ◌≤◌, leb, ltb, length};
ghost use Rattle.model.specs.Sheet.{layout_count};
ghost use Rattle.sheet.specs.Measured.{Accepted};
ghost use Rattle.model.specs.Interface.{looked};
ghost use Rattle.model.specs.Room.{lowest_if, lowest_of};

use sheet_fields::Sheet;
use sheet_index::layout_starts;
use sheet_layouts::Layouts;
use sheet_questions::check_sheet;

// What C is told, which has no Result: the number names no layout; the memory for the answer has no entry.
const NO_LAYOUT: u8 = 254;

const TOO_SHORT: u8 = 255;

// Of a sheet that questions 1 to 5 do not refuse: the lowest number of a layout with this one's content, or 254.
// The starts are an array of the most that there can be, since there is no heap.
fn put_lowest(sheet: &Sheet, layout: u64, out: &mut [u64]) -> u8
    requires { Accepted sheet.now.bytes.now sheet.now.sizes × (1 ≤ length out.old) }
    ensures { looked result out.new ≡ lowest_if (ltb layout (layout_count sheet.now.bytes.now)) sheet.now.bytes.now layout out.old }
{
    if sheet.sizes.layout_count as u64 <= layout {
        return NO_LAYOUT;
    }
    let mut starts = [0u16; 1024];
    layout_starts(sheet, &mut starts);
    let layouts = Layouts {
        sheet: &*sheet,
        starts: &starts,
    };
    out[0] = layouts.lowest(layout);
    0
}

// 0 with the lowest layout number of equal content at the front of out; the number of the first of the questions 1 to 5 that refuses; 254 where
// the number names no layout; 255 where out has no entry.
pub fn lowest_layout(bytes: &[u8], layout: u64, out: &mut [u64]) -> u8
    ensures { looked result out.new ≡ lowest_of (leb 1 (length out.old)) bytes.now layout out.old }
{
    if out.len() < 1 {
        return TOO_SHORT;
    }
    match check_sheet(bytes) {
        Ok(sheet) => put_lowest(&sheet, layout, out),
        Err(question) => question.number(),
    }
}

// What is found once a call, so that no later step adds up or compares the sheet's parts again.
#![tactic(auto)]

ghost use Rattle.std.specs.Prelude.{◌≡◌, ◌≤◌, ◌<◌, length};
ghost use Rattle.sheet.specs.Measured.{Accepted};
ghost use Rattle.sheet_layouts.specs.Classes.{layout_classes};
ghost use Rattle.sheet_index.specs.Tables.{first_ranges};

mod indexed;
mod offsets;

pub use indexed::IndexedSheet;
pub use offsets::{first_ranges, layout_starts};
use sheet_fields::Sheet;
use sheet_layouts::Layouts;

// The number of the first range of each instruction, and the class of each layout.
// The starts are an array of the most that there can be, since there is no heap.
pub fn index_sheet(sheet: &Sheet, firsts: &mut [u16], classes: &mut [u16])
    requires { Accepted sheet.now.bytes.now sheet.now.sizes × (sheet.now.sizes.code_count ≤ length firsts.old)
        × (sheet.now.sizes.layout_count < length classes.old) }
    ensures { (firsts.new ≡ first_ranges sheet.now.bytes.now firsts.old)
        × (classes.new ≡ layout_classes sheet.now.bytes.now classes.old) }
{
    first_ranges(sheet, firsts);
    let mut starts = [0u16; 1024];
    layout_starts(sheet, &mut starts);
    let layouts = Layouts {
        sheet: &*sheet,
        starts: &starts,
    };
    layouts.layout_classes(classes);
}

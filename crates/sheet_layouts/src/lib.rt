// "with the lowest layout number of equal content": of one layout, and once a call of all, to be read as often as needed
#![tactic(auto)]

ghost use Rattle.std.specs.Prelude.{◌≡◌, ◌<◌, length};
ghost use Rattle.model.specs.Listing.{lowest};
ghost use Rattle.model.specs.Sheet.{layout};
ghost use Rattle.sheet_layouts.specs.Classes.{layout_classes, class_of};
ghost use Rattle.sheet_layouts.specs.Readable.{Readable};

use sheet_fields::Sheet;

// A sheet that none of the questions 1 to 5 refuses, and where the slot kinds of each layout begin: what `layout_starts` has filled.
#[derive(Clone, Copy)]
pub struct Layouts<'a> {
    pub sheet: &'a Sheet<'a>,
    pub starts: &'a [u16],
    pub ghost readable: { Readable sheet.now.bytes.now sheet.now.sizes starts.now },
}

impl<'a> Layouts<'a> {
    // The slot kinds of layout i; none from y up.
    fn content(&self, i: usize) -> &'a [u8]
        ensures { result.now ≡ layout self.now.sheet.now.bytes.now i }
    {
        if self.sheet.sizes.layout_count <= i {
            return &self.sheet.bytes[..0];
        }
        let count = self.sheet.layout_length(i) as usize;
        self.sheet.slot_kinds(self.starts[i] as usize, count)
    }

    // The lowest layout with the content of layout i, for any number. From y up a layout is empty. Slices have `==`; that a slot kind which
    // differs goes on with the next layout by label is the form which document 01 names for this place.
    pub fn lowest(&self, i: u64) -> u64
        ensures { result ≡ lowest self.now.sheet.now.bytes.now i }
    {
        let n = (i as usize).min(self.sheet.sizes.layout_count);
        let own = self.content(n);
        'outer: for j in 0..n {
            let other = self.content(j);
            if other.len() != own.len() {
                continue 'outer;
            }
            for k in 0..own.len() {
                if other[k] != own[k] {
                    continue 'outer;
                }
            }
            return j as u64;
        }
        n as u64
    }

    // The class of every layout: the lowest number of equal content. From y up a layout is empty, and its class is that of y.
    pub fn layout_classes(&self, classes: &mut [u16])
        requires { self.now.sheet.now.sizes.layout_count < length classes.old }
        ensures { classes.new ≡ layout_classes self.now.sheet.now.bytes.now classes.old }
    {
        let y = self.sheet.sizes.layout_count;
        classes.fill(self.lowest(y as u64) as u16);
        for i in 0..y {
            classes[i] = self.lowest(i as u64) as u16;
        }
    }
}

// The class of layout i. classes is what layout_classes has filled; a number from its end up names no layout, and has the last one's class.
pub fn class_of(classes: &[u16], i: usize) -> u16
    ensures { result ≡ class_of classes.now i }
{
    let n = classes.len();
    if i < n {
        return classes[i];
    }
    if n == 0 {
        return 0;
    }
    classes[n - 1]
}

// A sheet with what is found of it once a call.
ghost use Rattle.model.specs.Sheet.{code_count, first_range};
ghost use Rattle.memory.specs.Front.{Holds};
ghost use Rattle.sheet.specs.Measured.{Accepted};
ghost use Rattle.sheet_layouts.specs.Classes.{Classes};

use sheet_fields::Sheet;

// A sheet that none of the questions 1 to 5 refuses, the number of each instruction's first range, and the class of each layout: what `index_sheet` finds.
// `Accepted` is asked besides by what finds these parts and by three callers, which have it from `check_sheet`: a third struct of a sheet for those
// few would be no plainer.
#[derive(Clone, Copy)]
pub struct IndexedSheet<'a> {
    pub sheet: &'a Sheet<'a>,
    pub firsts: &'a [u16],
    pub classes: &'a [u16],
    pub ghost accepted: { Accepted sheet.now.bytes.now sheet.now.sizes },
    pub ghost held: { Holds (first_range sheet.now.bytes.now) (code_count sheet.now.bytes.now) firsts.now },
    pub ghost classed: { Classes sheet.now.bytes.now classes.now },
}

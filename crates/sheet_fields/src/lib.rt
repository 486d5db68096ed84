// What a sheet says: a reader for each field. They stay apart, since each promises its own field's definition, by the field's name; one
// function that takes the field would be no plainer. A kind is answered as its byte: question 5 reads it too, where any byte may stand.
#![tactic(auto)]

ghost use Rattle.sheet.specs.Measured.{Measured};

mod instructions;
mod pools;

pub use instructions::instruction_at;
use sheet::Sizes;

// A sheet that questions 1 to 3 leave, so that each field can be read, and its sizes.
// That an index lies below its count is asked of each call, here and by all that read a Sheet, as a slice asks it of an index: a type of such
// numbers would be made anew at each turn of a loop that counts, and be no plainer.
#[derive(Clone, Copy)]
pub struct Sheet<'a> {
    pub bytes: &'a [u8],
    pub sizes: Sizes,
    pub ghost measured: { Measured bytes.now sizes },
}

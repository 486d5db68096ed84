// The length's fact of each instruction, which an IndexCheck reads.
ghost use Rattle.std.specs.Prelude.{◌≡◌};

use model::FactCell;

// A fact of a length, whose value has 16 bits: 4 bytes, where a `FactCell` takes 16. That of instruction p lies in place p.
#[derive(Clone, Copy)]
pub struct LengthFact {
    pub kind: u8,
    pub value: u16,
}

impl LengthFact {
    // As a cell of a row.
    pub fn cell(self) -> FactCell
        ensures { (result.kind ≡ self.kind) × (result.value ≡ self.value) }
    {
        FactCell {
            kind: self.kind,
            value: u64::from(self.value),
        }
    }
}

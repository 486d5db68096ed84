// One instruction's present byte and its cell of a slot, with question 9 of both.
ghost use Rattle.std.specs.Prelude.{◌≡◌, ◌<◌, length, get_or, eqb, Ok};
ghost use Rattle.model.specs.Call.{Table};
ghost use Rattle.model.specs.Lookup.{row_named, cell};
ghost use Rattle.fact_row.specs.Place.{placed};
ghost use Rattle.lookup.specs.Inside.{Inside, rows_named};

use super::Tables;
use model::FactCell;

// The present byte of pc; 0 "for pc from n up".
pub fn present_byte(present: &[u8], pc: u64) -> u8
    ensures { result ≡ get_or present.now pc 0 }
{
    present.get(pc as usize).copied().unwrap_or(0)
}

impl Tables<'_> {
    // The present byte of pc.
    pub(crate) fn present_at(&self, pc: u64) -> u8
        ensures { result ≡ get_or self.now.present pc 0 }
    {
        present_byte(self.present, pc)
    }

    // "is the present byte, for pc below n, 0 or 1, is the kind, for a tracked slot in a present row, one that this analysis names"
    pub(crate) fn names(&self, last: u8, at: Option<usize>, pc: u64) -> bool
        requires { Inside self.now (placed at) }
        ensures { let t = self.now in result ≡ row_named last (length t.slots) t.present t.kinds (placed at) pc }
    {
        match (at, self.present_at(pc)) {
            (Some(j), 1) => self.kinds[pc as usize * self.slots.len() + j] <= last,
            (Some(_), byte) => byte == 0,
            (None, byte) => byte <= 1,
        }
    }

    // "else the cell's kind and value", for a tracked slot in a present row; else none
    pub(crate) fn cell(&self, at: Option<usize>, pc: u64) -> Option<FactCell>
        requires { Inside self.now (placed at) }
        ensures { let t = self.now in Ok result ≡ cell (eqb (get_or t.present pc 0) 1) (length t.slots) t.kinds t.values pc (placed at) }
    {
        if self.present_at(pc) != 1 {
            return None;
        }
        let j = at?;
        let i = pc as usize * self.slots.len() + j;
        Some(FactCell {
            kind: self.kinds[i],
            value: self.values[i],
        })
    }

    // Question 9 "of every instruction", for constants.
    pub(crate) fn names_all(&self, at: Option<usize>) -> bool
        requires { Inside self.now (placed at) }
        ensures { let t = self.now in result ≡ rows_named (length t.slots) t.present t.kinds (placed at) (length t.present) }
    {
        for pc in 0..self.present.len() {
            if !self.names(3, at, pc as u64) {
                return false;
            }
        }
        true
    }
}

// "A constant slot is fixed when n exceeds 1, some instruction but 0 is present and all such show the same known value."
ghost use Rattle.std.specs.Prelude.{◌≡◌, ◌*◌, ◌-◌, ◌<◌, length, eqb, leb, Ok};
ghost use Rattle.model.specs.Lookup.{show, show_if, shown, fixed_at};
ghost use Rattle.fact_row.specs.Place.{placed};
ghost use Rattle.lookup.specs.Inside.{Inside, HasColumn};
ghost use Rattle.lookup.specs.Shown.{shown_by};

use super::Tables;
use model::FactCell;

// What the present instructions seen so far show of a slot: none of them, all one known value, or something else. An Option of an Option would say no
// more, and hide which of the two is "none". Kind and value stand apart: a `FactCell` in the enum is moved through memory in each turn of the loop, its
// unused bytes too, which took five times as long.
#[derive(Clone, Copy)]
pub enum Seen {
    Nothing,
    One { kind: u8, value: u64 },
    Mixed,
}

// One more present instruction shows this cell.
fn show(cell: FactCell, seen: Seen) -> Seen
    ensures { shown_by result ≡ show (leb 2 cell.kind) cell.kind cell.value (shown_by seen) }
{
    if cell.kind < 2 {
        return Seen::Mixed;
    }
    match seen {
        Seen::Nothing => Seen::One {
            kind: cell.kind,
            value: cell.value,
        },
        Seen::One { kind, value } => {
            if cell == (FactCell { kind, value }) {
                seen
            } else {
                Seen::Mixed
            }
        }
        Seen::Mixed => Seen::Mixed,
    }
}

// An absent instruction shows nothing.
fn show_if(byte: u8, cell: FactCell, seen: Seen) -> Seen
    ensures { shown_by result ≡ show_if (eqb byte 1) cell.kind cell.value (shown_by seen) }
{
    if byte == 1 { show(cell, seen) } else { seen }
}

impl Tables<'_> {
    // The instructions 1 to n − 1, which are all but 0.
    fn shown(&self, j: usize) -> Seen
        requires { HasColumn self.now j }
        ensures { let t = self.now in shown_by result ≡ shown (length t.slots) t.present t.kinds t.values j (length t.present - 1) }
    {
        let s = self.slots.len();
        let mut seen = Seen::Nothing;
        for pc in 1..self.present.len() {
            let i = pc * s + j;
            let cell = FactCell {
                kind: self.kinds[i],
                value: self.values[i],
            };
            seen = show_if(self.present[pc], cell, seen);
        }
        seen
    }

    // The n − 1 instructions but 0, of a tracked slot; "else none".
    pub(crate) fn fixed_at(&self, at: Option<usize>) -> Option<FactCell>
        requires { Inside self.now (placed at) }
        ensures { let t = self.now in Ok result ≡ fixed_at (length t.slots) t.present t.kinds t.values (placed at) }
    {
        let j = at?;
        match self.shown(j) {
            Seen::One { kind, value } => Some(FactCell { kind, value }),
            Seen::Nothing | Seen::Mixed => None,
        }
    }
}

// Question 9 of the slots and of the tables' lengths, and the place of a slot in tables that it does not refuse.
ghost use Rattle.std.specs.Prelude.{◌≡◌, ◌*◌, false, eqb, MatchResult};
ghost use Rattle.model.specs.Lookup.{ascends, tables_agree};
ghost use Rattle.fact_row.specs.Place.{placed};
ghost use Rattle.lookup.specs.Inside.{Found};

use super::Tables;
use fact_row::find;
use model::Damaged;

// "do the slots ascend strictly"
fn ascending(slots: &[u16]) -> bool
    ensures { result ≡ ascends slots.now }
{
    slots.is_sorted_by(|slot, next| slot < next)
}

// Whether len is n × s, which may be past 64 bits.
fn is_product(len: usize, n: usize, s: usize) -> bool
    ensures { result ≡ eqb len (n * s) }
{
    n.checked_mul(s) == Some(len)
}

impl Tables<'_> {
    // "do the slots ascend strictly, are kinds and values exactly n × s long"
    fn agree(&self) -> bool
        ensures { let t = self.now in result ≡ tables_agree t.slots t.present t.kinds t.values }
    {
        let n = self.present.len();
        let s = self.slots.len();
        ascending(self.slots)
            && is_product(self.kinds.len(), n, s)
            && is_product(self.values.len(), n, s)
    }

    // The place of a slot among the tracked ones; 9 where the tables do not agree.
    pub(crate) fn place(&self, slot: u16) -> Result<Option<usize>, Damaged>
        ensures { let t = self.now in
            MatchResult result (λ at. Found t slot (placed at)) (λ e. tables_agree t.slots t.present t.kinds t.values ≡ false) }
    {
        if self.agree() {
            Ok(find(self.slots, usize::from(slot)))
        } else {
            Err(Damaged)
        }
    }
}

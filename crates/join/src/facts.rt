// "Conflict with anything is Conflict; else Unknown with anything is Unknown; equal known facts stay; different ones give Conflict."
ghost use Rattle.std.specs.Prelude.{◌≡◌};
ghost use Rattle.model.specs.Fact.{join, equal_numbers};
ghost use Rattle.model.specs.Tables.{fact_in, cell_of};

use model::FactCell;

// The join, where `equal` says whether the two are equal if both are known. Of equal facts the old numbers stay.
pub fn merge_fact(old: FactCell, new: FactCell, equal: bool) -> FactCell
    ensures { result ≡ cell_of (join (λ k v l w. equal) (fact_in old) (fact_in new)) }
{
    if old.kind == 1 || new.kind == 1 {
        FactCell::CONFLICT
    } else if old.kind == 0 || new.kind == 0 {
        FactCell::UNKNOWN
    } else if equal {
        old
    } else {
        FactCell::CONFLICT
    }
}

// The join of two facts that are numbers, constants or index checks: they are equal by kind and value, and a kind tells −1 from 2^64 − 1.
pub fn merge_number_fact(old: FactCell, new: FactCell) -> FactCell
    ensures { result ≡ cell_of (join equal_numbers (fact_in old) (fact_in new)) }
{
    merge_fact(old, new, old == new)
}

// The join of container facts: "Layouts are equal by length and content, and the stored numbers stay." Equal layouts are of one class.
ghost use Rattle.std.specs.Prelude.{◌≡◌};
ghost use Rattle.model.specs.Fact.{join};
ghost use Rattle.model.specs.Tables.{fact_in, cell_of};
ghost use Rattle.sheet_layouts.specs.Classes.{equal_containers_by};

use crate::facts::merge_fact;
use model::FactCell;
use sheet_layouts::class_of;

// Whether two containers are equal: by kind, and A and B by class ("value A × 65,536 + B"). Equal cells are answered at once.
// No `PartialEq` says this, since that has no classes to ask.
pub fn equal_containers(classes: &[u16], old: FactCell, new: FactCell) -> bool
    ensures { result ≡ equal_containers_by classes.now old.kind old.value new.kind new.value }
{
    let was = old.value;
    let is = new.value;
    old == new
        || (old.kind == new.kind
            && class_of(classes, (was / 65536) as usize) == class_of(classes, (is / 65536) as usize)
            && class_of(classes, (was % 65536) as usize)
                == class_of(classes, (is % 65536) as usize))
}

// The join of two container facts.
pub fn merge_container_fact(classes: &[u16], old: FactCell, new: FactCell) -> FactCell
    ensures { result ≡ cell_of (join (equal_containers_by classes.now) (fact_in old) (fact_in new)) }
{
    merge_fact(old, new, equal_containers(classes, old, new))
}

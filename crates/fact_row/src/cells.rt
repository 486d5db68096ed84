// Facts as cells: the containers' known facts, and IndexCheck's fact from a length. A kind is a number, as it lies in the lent tables.
ghost use Rattle.std.specs.Prelude.{◌≡◌};
ghost use Rattle.model.specs.Tables.{fact_in, cell_of};
ghost use Rattle.model.specs.Transfer.{checked_from, map_fact, queue_fact};

use model::FactCell;

// "Containers: 2 map ..; value A × 65,536 + B"
#[tactic(auto, unfolding(model::specs::Fact::kind, model::specs::Fact::value, model::specs::Tables::cell_of, model::specs::Transfer::map_fact))]
pub fn map_cell(key_layout: u16, val_layout: u16) -> FactCell
    ensures { result ≡ cell_of (map_fact key_layout val_layout) }
{
    FactCell {
        kind: 2,
        value: key_layout as u64 * 65536 + val_layout as u64,
    }
}

// "4 queue", "B 0 for a queue"
#[tactic(auto, unfolding(model::specs::Fact::kind, model::specs::Fact::value, model::specs::Tables::cell_of, model::specs::Transfer::queue_fact))]
pub fn queue_cell(elem_layout: u16) -> FactCell
    ensures { result ≡ cell_of (queue_fact elem_layout) }
{
    FactCell {
        kind: 4,
        value: elem_layout as u64 * 65536,
    }
}

// IndexCheck's fact from the length's: 0 to 65,535 is Checked, any other number and Conflict are Conflict, Unknown is Unknown.
#[tactic(auto, unfolding(model::specs::Fact::kind, model::specs::Fact::value, model::specs::Tables::cell_of, model::specs::Tables::fact_in, model::specs::Tables::fact_of, model::specs::Transfer::checked_from, model::specs::Transfer::checked))]
pub fn checked_cell(length: FactCell) -> FactCell
    ensures { result ≡ cell_of (checked_from (fact_in length)) }
{
    match length.kind {
        0 => FactCell::UNKNOWN,
        2 if length.value <= 65535 => FactCell {
            kind: 2,
            value: length.value,
        },
        _ => FactCell::CONFLICT,
    }
}

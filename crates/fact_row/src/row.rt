// A row of facts about the tracked slots, as it is read and as it is written.
ghost use Rattle.fact_row.specs.Rows.{ReadableRow, WritableRow};

use crate::bound::find;
use model::FactCell;

// The tracked slots, and the kind and the value of each slot's fact: two arrays, as the C interface lends them.
#[derive(Clone, Copy)]
pub struct TrackedRow<'a> {
    pub slots: &'a [u16],
    pub kinds: &'a [u8],
    pub values: &'a [u64],
    // the slots ascend, and kinds and values hold a fact for each
    pub ghost readable: { ReadableRow slots.now kinds.now values.now },
}

impl TrackedRow<'_> {
    ghost use Rattle.std.specs.Prelude.{◌≡◌};
    ghost use Rattle.model.specs.Tables.{cell_of};
    ghost use Rattle.model.specs.Transfer.{fact_for};
    ghost use Rattle.fact_row.specs.Tracked.{facts_read};

    // `fact_for_tracked_source`: the fact of a slot; Unknown of an untracked one, and of a number past 65,535.
    pub fn fact_for_tracked_source(&self, slot: usize) -> FactCell
        ensures { result ≡ cell_of (fact_for self.now.slots.now (facts_read self.now) slot) }
    {
        match find(self.slots, slot) {
            Some(at) => FactCell {
                kind: self.kinds[at],
                value: self.values[at],
            },
            None => FactCell::UNKNOWN,
        }
    }
}

// The same row as it is written.
#[derive(Drop)]
pub struct FactRow<'a> {
    pub slots: &'a [u16],
    pub kinds: &'a mut [u8],
    pub values: &'a mut [u64],
    // the slots ascend, and kinds and values have a place for each
    pub ghost writable: { WritableRow slots.now kinds.now values.now },
}

impl FactRow<'_> {
    ghost use Rattle.fact_row.specs.Changed.{FactSet, SameRow, RowZero};

    // A slot's fact is set, if the slot is tracked.
    #[tactic(auto, using(crate::proofs::Places::place_inside))]
    pub fn set(&mut self, slot: usize, cell: FactCell)
        ensures { FactSet slot cell self.old self.new }
    {
        if let Some(at) = find(self.slots, slot) {
            self.kinds[at] = cell.kind;
            self.values[at] = cell.value;
        }
    }

    // Each slot's fact becomes Unknown.
    pub fn clear(&mut self)
        ensures same { SameRow self.old self.new }
        ensures zero { RowZero self.new }
    {
        self.kinds.fill(0);
        self.values.fill(0);
    }
}

// The lent memory of an analysis. What takes it says that each slice is still the same memory, as long as before. The three outputs and the scratch of a
// call are no struct of these structs: tried, and the proof didn't close, since no fact tells what a struct in a struct leaves behind its slices.
ghost use Rattle.std.specs.Prelude.{◌≡◌};
ghost use Rattle.model.specs.Call.{zero_table};
ghost use Rattle.stage_memory.specs.Stage.{zero_scratch, table_if};

use memory::{clear, clear_row, clear_rows};

// The output of one analysis: "slots (16-bit), present bytes .., and n × s kind bytes and 64-bit values".
#[derive(Drop)]
pub struct LentTable<'a> {
    pub slots: &'a mut [u16],
    pub present: &'a mut [u8],
    pub kinds: &'a mut [u8],
    pub values: &'a mut [u64],
}

impl LentTable<'_> {
    ghost use Rattle.stage_memory.specs.Lent.{table_in, SameTable};

    // All of it becomes zero.
    pub fn clear(&mut self)
        ensures zero { table_in self.new ≡ zero_table (table_in self.old) }
        ensures same { SameTable self.old self.new }
    {
        clear(self.slots);
        clear_rows(self.present, self.kinds, self.values);
    }

    // All of it becomes zero where the test holds. The flag is one for two tables, so an Option or a Result in its place would be made twice and say
    // no more.
    pub fn clear_if(&mut self, test: bool)
        ensures zero { table_in self.new ≡ table_if test (table_in self.old) }
        ensures same { SameTable self.old self.new }
    {
        if test {
            self.clear();
        }
    }
}

// The scratch that the analyses share: the marks and the stack of the closure, a row of facts, the work list.
#[derive(Drop)]
pub struct LentScratch<'a> {
    pub marks: &'a mut [u8],
    pub stack: &'a mut [u16],
    pub row_kinds: &'a mut [u8],
    pub row_values: &'a mut [u64],
    pub work_list: &'a mut [u16],
}

impl LentScratch<'_> {
    ghost use Rattle.stage_memory.specs.Lent.{scratch_in, SameScratch};

    // All of it becomes zero.
    pub fn clear(&mut self)
        ensures zero { scratch_in self.new ≡ zero_scratch (scratch_in self.old) }
        ensures same { SameScratch self.old self.new }
    {
        clear(self.marks);
        clear(self.stack);
        clear_row(self.row_kinds, self.row_values);
        clear(self.work_list);
    }
}

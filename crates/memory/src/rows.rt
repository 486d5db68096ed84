// Clearing of rows of facts.
ghost use Rattle.std.specs.Prelude.{◌≡◌};
ghost use Rattle.model.specs.Call.{zeros};

use crate::clear;

// A row becomes zero.
pub fn clear_row(kinds: &mut [u8], values: &mut [u64])
    ensures { (kinds.new ≡ zeros kinds.old) × (values.new ≡ zeros values.old) }
{
    clear(kinds);
    clear(values);
}

// The rows of a table become zero.
pub fn clear_rows(present: &mut [u8], kinds: &mut [u8], values: &mut [u64])
    ensures { (present.new ≡ zeros present.old) × (kinds.new ≡ zeros kinds.old) × (values.new ≡ zeros values.old) }
{
    clear(present);
    clear_row(kinds, values);
}

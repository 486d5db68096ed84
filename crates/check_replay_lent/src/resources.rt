// The budget of a recorded sheet.
ghost use Rattle.std.specs.Prelude.{◌≡◌};
ghost use Rattle.check_replay_lent.specs.Lent.{budget_given};

use model::VerifierResources;
use sheet::Number;

// No From, since neither type is of this crate.
pub fn budget_of(head: &[u8; 88]) -> VerifierResources
    ensures { result ≡ budget_given head.now }
{
    VerifierResources {
        bytes: u64::read(head, 4),
        work: u64::read(head, 12),
    }
}

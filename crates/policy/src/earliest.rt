// The earliest deadline first, and on a tie the lower number.
ghost use Rattle.std.specs.Prelude.{◌≡◌};
ghost use Rattle.policy.specs.Choice.{Choice, Only};
ghost use Rattle.policy.specs.Policies.{EarlierThenLower, EarliestLowest, earliest_mark};
ghost use Rattle.std.proofs.Common.{rules};

use crate::pending::PendingTask;
use crate::policy::Policy;
use crate::preference::{Preference, first};

#[derive(Drop)]
pub struct Earliest;

impl Earliest {
    pub fn new() -> Earliest
        ensures value { result ≡ record {} }
    {
        Earliest
    }
}

impl Preference for Earliest {
    ghost ahead = { λ _. EarlierThenLower };

    ghost level = { Prim.search rules };

    ghost chained = { Prim.search rules };

    ghost settled = { Prim.search rules };

    fn prefers(&self, a: PendingTask, b: PendingTask) -> bool {
        (a.left, a.task) < (b.left, b.task)
    }
}

// Not one impl for every preference: Steady remembers what was chosen, and each policy promises its own answer.
impl Policy for Earliest {
    ghost mark = { earliest_mark };

    fn choose(&mut self, pending: &[PendingTask]) -> Option<u8>
        ensures choice { Choice (earliest_mark self.old) pending.now result }
        ensures same_mark { earliest_mark self.new ≡ earliest_mark self.old }
        ensures answer { EarliestLowest pending.now result }
        ensures only { Only (EarliestLowest pending.now) result }
    {
        first(self, pending)
    }
}

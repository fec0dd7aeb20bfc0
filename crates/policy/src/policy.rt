// What a policy owes to whoever asks it. Nothing here says how a policy searches or what it remembers.
ghost use Rattle.std.specs.Prelude.{◌≡◌, Bool};
ghost use Rattle.policy.specs.Choice.{Choice};

use crate::pending::PendingTask;

pub trait Policy {
    // Whether the policy goes by the earliest deadline.
    ghost mark: { Self → Bool };

    // The number of the task to run next, or none if nothing is pending. The policy may remember what it likes;
    // its mark stays.
    fn choose(&mut self, pending: &[PendingTask]) -> Option<u8>
        ensures choice { Choice (mark self.old) pending.now result }
        ensures same_mark { mark self.new ≡ mark self.old };
}

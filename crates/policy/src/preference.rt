// A preference ranks pending tasks two at a time, and `first` finds the one that ranks first in a list.
ghost use Rattle.std.specs.Prelude.{◌≡◌, true, false, ◌⊎◌};
ghost use Rattle.policy.specs.Choice.{Order, Level, Chained, Settled, FirstIn, Only};

use crate::pending::PendingTask;

pub trait Preference {
    // `ahead s a b`: by the preference s, a ranks ahead of b or level with it.
    ghost ahead: { Self → Order };

    // Whether to take a rather than b. Where the two are level, either answer will do.
    fn prefers(&self, a: PendingTask, b: PendingTask) -> bool
        ensures preferred { result ≡ true → ahead self.now a b }
        ensures deferred { result ≡ false → ahead self.now b a };

    // The three laws of a ranking: with them a list has exactly one answer.
    ghost level: { (s : Self) → Level (ahead s) };

    ghost chained: { (s : Self) → Chained (ahead s) };

    ghost settled: { (s : Self) → Settled (ahead s) };
}

// The one of two pending tasks that ranks ahead of the other or level with it.
fn better<P: Preference>(preference: &P, a: PendingTask, b: PendingTask) -> PendingTask
    ensures one { (result ≡ a) ⊎ (result ≡ b) }
    ensures ahead { P.Preference.ahead preference.now result a × P.Preference.ahead preference.now result b }
{
    if preference.prefers(a, b) { a } else { b }
}

// The number of the pending task that ranks first, or none if nothing is pending.
pub fn first<P: Preference>(preference: &P, pending: &[PendingTask]) -> Option<u8>
    ensures answer { FirstIn (P.Preference.ahead preference.now) pending.now result }
    ensures only { Only (FirstIn (P.Preference.ahead preference.now) pending.now) result }
{
    let best = pending
        .iter()
        .copied()
        .reduce(|best, candidate| better(preference, candidate, best))?;
    Some(best.task)
}

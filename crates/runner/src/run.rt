// The run.
use crate::bench::Bench;
use crate::progress::Progress;

// A bench at work: its program runs by ticks under a policy. The bench is inside, so that nobody can load it, and `end` gives
// it back. A run cannot be copied.
// The project's rule: that it is sound is promised call by call (SoundRun), and is no invariant.
#[derive(Drop)]
pub struct Run<H, P> {
    pub(crate) bench: Bench<H>,
    pub(crate) policy: P,
    pub(crate) progress: Progress,
}

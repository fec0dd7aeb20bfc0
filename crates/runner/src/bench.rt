// The bench.
use ecode::code::Program;
use parts::data::Wiring;

// A host, and the program that it is loaded with; what a run asks of the host's sheet is worked out once.
// A bench cannot be copied.
// The project's rule: that its program is accepted is promised call by call (SoundBench), and is no invariant.
#[derive(Drop)]
pub struct Bench<H> {
    pub(crate) host: H,
    pub(crate) program: Program,
    pub(crate) wiring: Wiring,
}

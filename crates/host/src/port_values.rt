// The values of the ports of a drive.
ghost use Rattle.std.specs.Prelude.{◌≡◌, length, replicate, pos, slice_set};
ghost use Rattle.host.specs.Meaning.{reading};
ghost use Rattle.host.specs.PitchHost.{copied};

// The values of N ports, port 0 first.
#[derive(Drop)]
pub struct PortValues<const N: usize> {
    pub(crate) values: [i32; N],
    ghost long: { length values ≡ N },
}

impl<const N: usize> PortValues<N> {
    // Every port begins at 0.
    pub fn new() -> PortValues<N>
        ensures { result.values ≡ replicate N (pos 0) }
    {
        PortValues { values: [0; N] }
    }

    // The value of a port, 0 where there is no such port.
    pub fn get(&self, port: u8) -> i32
        ensures { result ≡ reading self.now.values port }
    {
        self.values.get(port as usize).copied().unwrap_or(0)
    }

    // Sets a port. Where there is no such port, nothing changes.
    #[tactic(auto, using(std::proofs::lemmas::List::set_past))]
    pub fn set(&mut self, port: u8, value: i32)
        ensures { self.new.values ≡ slice_set self.old.values port value }
    {
        let at = port as usize;
        if at < N {
            self.values[at] = value;
        }
    }

    // Copies one port to another.
    pub fn copy(&mut self, from: u8, to: u8)
        ensures { self.new.values ≡ copied from to self.old.values }
    {
        self.set(to, self.get(from));
    }
}

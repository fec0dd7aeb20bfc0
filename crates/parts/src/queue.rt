// The queue of bindings.
ghost use Rattle.std.specs.Prelude.{◌≡◌, ◌<◌, [], ◌∷◌, ◌++◌, map, length};
ghost use Rattle.machine.specs.Runner.{one_less_wait};
ghost use Rattle.parts.specs.Shown.{queued, Takes};

use crate::data::Queue;
use machine::binding::Binding;

impl Queue {
    // One binding, due at the first tick.
    pub fn starting(at: u16) -> Queue
        ensures { queued result ≡ record { wait = 1; at = at } ∷ [] }
    {
        Queue {
            items: [Binding { wait: 1, at }; 8],
            len: 1,
        }
    }

    // One binding more, at the end.
    pub fn push(&mut self, wait: u8, at: u16)
        requires { length (queued self.old) < 8 }
        ensures { queued self.new ≡ queued self.old ++ (record { wait = wait; at = at } ∷ []) }
    {
        self.items[self.len] = Binding { wait, at };
        self.len += 1;
    }

    // Every wait falls by 1.
    pub fn count_down(&mut self)
        ensures { queued self.new ≡ map one_less_wait (queued self.old) }
    {
        for binding in self.items[0..self.len].iter_mut() {
            binding.wait = binding.wait.saturating_sub(1);
        }
    }

    // The first binding that is due is taken out: its address.
    pub fn take_due(&mut self) -> Option<u16>
        ensures { Takes (queued self.old) result (queued self.new) }
    {
        let first = self.items[..self.len]
            .iter()
            .position(|binding| binding.wait == 0)?;
        let at = self.items[first].at;
        self.items.copy_within(first + 1..self.len, first);
        self.len -= 1;
        Some(at)
    }
}

// Sets of tasks and of ports as masks, bit k for the member k.
ghost use Rattle.std.specs.Prelude.{◌≡◌};
ghost use Rattle.ecode.specs.Wiring.{has};

// Whether a set has the member k. A set of fewer than 32 is widened to it.
pub fn has_member(set: u32, k: u8) -> bool
    ensures { result ≡ has set k }
{
    k < 32 && (set >> k) & 1 == 1
}

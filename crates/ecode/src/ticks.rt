// Numbers of ticks.
ghost use Rattle.std.specs.Prelude.{◌≡◌};
ghost use Rattle.ecode.specs.Image.{is_ticks};

// A window, a wait or a budget: 1 to 240 ticks.
pub fn is_tick_count(x: u8) -> bool
    ensures { result ≡ is_ticks x }
{
    (1..=240).contains(&x)
}

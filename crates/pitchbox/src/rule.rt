// Rules that are checked one by one.
ghost use Rattle.std.specs.Prelude.{◌≡◌, if◌then◌else◌, Ok, Err};

// A rule that is kept, or the fault of breaking it.
pub fn ensure<E: Drop>(kept: bool, fault: E) -> Result<(), E>
    ensures { result ≡ (if kept then Ok tt else Err fault) }
{
    if kept { Ok(()) } else { Err(fault) }
}

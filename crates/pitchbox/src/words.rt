// Words behind a command that it does not take.
ghost use Rattle.std.specs.Prelude.{◌≡◌, ◌==◌, length, is_ok};

use thiserror::Error;

#[derive(Clone, Copy, Debug, Error)]
#[error("'{0}' is one word too many")]
pub struct Extra<'a>(&'a str);

// A command that takes no more words has none.
pub fn no_more<'a>(rest: &[&'a str]) -> Result<(), Extra<'a>>
    ensures { is_ok result ≡ (length rest.now == 0) }
{
    match rest {
        [] => Ok(()),
        [word, ..] => Err(Extra(*word)),
    }
}

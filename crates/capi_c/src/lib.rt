// The exports for callers in C, each the function of capi by its name: a library's functions can't be exported from the library.
#![tactic(auto)]

ghost use Rattle.std.specs.Prelude.{◌≡◌};
ghost use Rattle.ecode.specs.Verdict.{verdict};
ghost use Rattle.host.specs.Pitch.{pitch_sheet};
ghost use Rattle.capi.specs.Numbers.{number};
ghost use Rattle.wide.specs.Wide.{plain_sheet};

// The check for the pitch drive.
#[unsafe(no_mangle)]
pub extern "C" fn pitch_check(image: &[u8], budgets: &[u8]) -> u8
    ensures { result ≡ number (verdict pitch_sheet image.now budgets.now) }
{
    capi::pitch_check(image, budgets)
}

// The check for the drive with eight tasks, for measuring.
#[unsafe(no_mangle)]
pub extern "C" fn wide_check(image: &[u8], budgets: &[u8]) -> u8
    ensures { result ≡ number (verdict plain_sheet image.now budgets.now) }
{
    capi::wide_check(image, budgets)
}

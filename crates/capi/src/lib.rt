// The check by numbers, as callers in C want it: bytes in, a refusal's number out, 0 where the image is accepted. capi_c exports it.
#![tactic(auto)]

ghost use Rattle.std.specs.Prelude.{◌≡◌};
ghost use Rattle.ecode.specs.Verdict.{verdict};
ghost use Rattle.host.specs.Pitch.{pitch_sheet};
ghost use Rattle.capi.specs.Numbers.{number};
ghost use Rattle.wide.specs.Wide.{plain_sheet};

use ecode::sheet::Sheet;
use host::pitch;
use loader::check;
use wide::sheet;

// The number of the verdict by a sheet.
fn number_of(sheet: &Sheet, image: &[u8], budgets: &[u8]) -> u8
    ensures { result ≡ number (verdict sheet.now image.now budgets.now) }
{
    match check(sheet, image, budgets) {
        Ok(_) => 0,
        Err(fault) => fault.refusal().number,
    }
}

// The check for the pitch drive. C has no sheets of ours to hand over, so each drive has a function of its own.
pub fn pitch_check(image: &[u8], budgets: &[u8]) -> u8
    ensures { result ≡ number (verdict pitch_sheet image.now budgets.now) }
{
    number_of(&pitch::sheet(), image, budgets)
}

// The check for the drive with eight tasks, for measuring.
pub fn wide_check(image: &[u8], budgets: &[u8]) -> u8
    ensures { result ≡ number (verdict plain_sheet image.now budgets.now) }
{
    number_of(&sheet::plain(), image, budgets)
}

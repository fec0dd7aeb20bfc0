// The typing rules at each address.
ghost use Rattle.std.specs.Prelude.{◌≡◌, ◌+◌, ◌<◌, true, not, ◌||◌, ◌==◌, slice_index_or};
ghost use Rattle.ecode.specs.Rules.{Judged};
ghost use Rattle.ecode.specs.Wiring.{all_below};
ghost use Rattle.ecode.specs.Instructions.{target};
ghost use Rattle.ecode.specs.declared.code.Cell.TheVariants.{NotHeld};
ghost use Rattle.ecode.specs.Typing.{flows, held, cell, well_typed};
ghost use Rattle.ecode.specs.Verdict.{lines_of, typing_rules};
ghost use Rattle.ecode.specs.Parts.{Sound};
ghost use Rattle.typing.specs.Rows.{allows, flows_next, flows_there, line_in};

use crate::cell::{has_next, target_of};
use crate::row::{all_held, parts_with_a_task, row_after, row_allows, row_at_target, row_flows};
use ecode::code::{BLANK, Cell, Line, Listing};
use ecode::fault::CodeFault;
use ecode::lines::line_or;
use ecode::sheet::Sheet;

// An address of a listing under a sheet, with pairs that fit the arithmetic on them.
#[derive(Clone, Copy)]
struct Place<'a> {
    sheet: &'a Sheet,
    listing: &'a Listing,
    address: u16,
    ghost sound: { Sound (lines_of listing.now) },
    ghost inside: { address < listing.now.count },
}

impl Place<'_> {
    // The line here.
    fn line(&self) -> &Line
        ensures { result.now ≡ line_in self.now.listing.now self.now.address }
    {
        &self.listing.in_use()[usize::from(self.address)]
    }

    // Whether a row flows into the row at an address.
    fn flows_at(&self, row: &[Cell; 8], a: u16) -> bool
        ensures { result ≡ all_below self.now.sheet.now.tasks (λ t. flows (slice_index_or row.now t NotHeld) (cell (line_in self.now.listing.now a) t)) }
    {
        row_flows(self.sheet, row, &line_or(self.listing, a, &BLANK).row)
    }

    // What the instruction makes of the row flows into the next row, if there is one.
    fn flows_on(&self) -> bool
        ensures { result ≡ flows_next self.now.sheet.now (line_in self.now.listing.now self.now.address) (line_in self.now.listing.now (self.now.address + 1)) }
    {
        let line = self.line();
        !has_next(line.instruction) || self.flows_at(&row_after(self.sheet, line), self.address + 1)
    }

    // What the instruction leaves to its target flows into the row there, if it has one.
    fn flows_to_target(&self) -> bool
        ensures { allows self.now.sheet.now (line_in self.now.listing.now self.now.address) ≡ true → result ≡ flows_there self.now.sheet.now (line_in self.now.listing.now self.now.address) (line_in self.now.listing.now (target (line_in self.now.listing.now self.now.address).instruction)) }
    {
        let line = self.line();
        match target_of(line.instruction) {
            Some(to) => self.flows_at(&row_at_target(self.sheet, line), to),
            None => true,
        }
    }

    // Whether the row holds all tasks, if the entry is here.
    fn starts_held(&self) -> bool
        ensures { result ≡ (not (self.now.address == self.now.listing.now.entry) || all_below self.now.sheet.now.tasks (λ t. held (cell (line_in self.now.listing.now self.now.address) t))) }
    {
        self.address != self.listing.entry || all_held(self.sheet, &self.line().row)
    }

    fn is_well_typed(&self) -> bool
        ensures { result ≡ well_typed self.now.sheet.now (lines_of self.now.listing.now) self.now.listing.now.entry self.now.address }
    {
        let line = self.line();
        row_allows(self.sheet, line)
            && self.flows_on()
            && self.flows_to_target()
            && parts_with_a_task(line.instruction, &line.row)
            && self.starts_held()
    }
}

// The earliest address at which a typing rule does not hold, as a fault.
pub fn check_typing(sheet: &Sheet, listing: &Listing) -> Result<(), CodeFault>
    requires { Sound (lines_of listing.now) }
    ensures { Judged (typing_rules sheet.now (lines_of listing.now) listing.now.entry listing.now.count) (λ _. Unit {0}) result }
{
    let is_well_typed = |address: u16| -> bool
        requires sound { Sound (lines_of listing.now) }
        requires inside { address < listing.now.count }
    {
        let place = Place {
            sheet,
            listing,
            address,
        };
        place.is_well_typed()
    };
    match (0..listing.count).find(|a| !is_well_typed(*a)) {
        Some(address) => Err(CodeFault::Typing { address }),
        None => Ok(()),
    }
}

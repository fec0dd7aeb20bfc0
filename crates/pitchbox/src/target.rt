// Where an instruction goes, by its opcode.
ghost use Rattle.std.specs.Prelude.{◌≡◌, is_ok};
ghost use Rattle.ecode.specs.Instructions.{aimed};
ghost use Rattle.pitchbox.specs.Layout.{going};

use crate::rule::ensure;
use image::Opcode;

// Why an address that an instruction goes to is no good.
#[derive(Clone, Copy, PartialEq, Eq)]
pub enum Astray {
    NoNext,
    Outside,
    NotHigher,
}

// At an address of so many, the instruction goes to the next address, or the one that it names, as it must.
pub fn check_target(opcode: Opcode, to: u8, address: u16, count: usize) -> Result<(), Astray>
    ensures { is_ok result ≡ aimed count address (going opcode to) }
{
    let has_next = usize::from(address) + 1 < count;
    let is_inside = usize::from(to) < count;
    let is_higher = address < u16::from(to);
    match opcode {
        Opcode::Call | Opcode::Release => ensure(has_next, Astray::NoNext),
        Opcode::Future => {
            ensure(has_next, Astray::NoNext)?;
            ensure(is_inside, Astray::Outside)
        }
        Opcode::If => {
            ensure(has_next, Astray::NoNext)?;
            ensure(is_inside, Astray::Outside)?;
            ensure(is_higher, Astray::NotHigher)
        }
        Opcode::Jump => {
            ensure(is_inside, Astray::Outside)?;
            ensure(is_higher, Astray::NotHigher)
        }
        Opcode::Return => Ok(()),
    }
}

// The trailer and the records of an image, with their bytes by name, and the rules that a record keeps.
ghost use Rattle.std.specs.Prelude.{◌≡◌, ◌+◌, ◌-◌, ◌*◌, ◌/◌, ◌<◌, length, MatchOption, is_ok, is_some, ◌==◌};
ghost use Rattle.ecode.specs.Image.{decoded, cell_of};
ghost use Rattle.pitchbox.specs.Layout.{TrailerIs, RecordIs, misfit_byte};

use crate::names::Counted;
use crate::rule::ensure;
use ecode::sheet::Sheet;
use ecode::ticks::is_tick_count;
use image::{Opcode, read_cell, trailer_bytes};
use std::fmt;
use thiserror::Error;

// How many tasks, drivers and conditions a drive has.
#[derive(Clone, Copy, PartialEq, Eq)]
pub struct Counts {
    pub tasks: u8,
    pub drivers: u8,
    pub conditions: u8,
}

impl From<&Sheet> for Counts {
    fn from(sheet: &Sheet) -> Counts {
        Counts {
            tasks: sheet.tasks,
            drivers: sheet.drivers,
            conditions: sheet.conditions,
        }
    }
}

impl fmt::Display for Counts {
    fn fmt<W: fmt::Write>(&self, f: &mut fmt::Formatter<W>) -> fmt::Result {
        let tasks = Counted(usize::from(self.tasks), "task");
        let drivers = Counted(usize::from(self.drivers), "driver");
        let conditions = Counted(usize::from(self.conditions), "condition");
        write!(f, "{tasks}, {drivers} and {conditions}")
    }
}

// The last 8 bytes of an image.
#[derive(Clone, Copy, PartialEq, Eq)]
pub struct Trailer {
    pub length: u16,
    pub entry: u8,
    pub counts: Counts,
    pub form: u8,
    pub mark: u8,
}

impl Trailer {
    // The trailer of an image, unless the image is too short for one.
    pub fn of(image: &[u8]) -> Option<Trailer>
        ensures { MatchOption result (length image.now < 8) (TrailerIs image.now) }
    {
        let [high, low, entry, tasks, drivers, conditions, form, mark] = trailer_bytes(image)?;
        Some(Trailer {
            length: u16::from_be_bytes([high, low]),
            entry,
            counts: Counts {
                tasks,
                drivers,
                conditions,
            },
            form,
            mark,
        })
    }
}

// The number of records that stand before a trailer.
pub fn records(image: &[u8]) -> usize
    ensures { result ≡ (length image.now - 8) / 20 }
{
    image.len().saturating_sub(8) / 20
}

// The byte at which the record at an address begins.
pub fn start_of(address: u16) -> usize
    ensures { result ≡ 20 * address }
{
    20 * usize::from(address)
}

// The 20 bytes of a record: an opcode with its operands, and the pairs of the row.
#[derive(Clone, Copy)]
pub struct Record<'a> {
    pub opcode: u8,
    pub x: u8,
    pub y: u8,
    pub z: u8,
    pub row: &'a [u8],
}

// What a row has of one task.
#[derive(Clone, Copy, PartialEq, Eq)]
pub struct Pair {
    pub task: u8,
    pub consumed: u8,
    pub remaining: u8,
}

impl Pair {
    // Whether it says something of the task.
    pub fn fits(self, tasks: u8) -> bool
        ensures { result ≡ is_some (cell_of tasks self.task self.consumed self.remaining) }
    {
        read_cell(tasks, self.task, self.consumed, self.remaining).is_some()
    }
}

// Why an opcode and its operands make no instruction.
#[derive(Clone, Copy, Debug, PartialEq, Eq, Error)]
pub enum Misfit {
    #[error("There is no such opcode: they are 1 to 6")]
    Opcode,
    #[error("This drive has no driver of that number")]
    Driver,
    #[error("This drive has no task of that number")]
    Task,
    #[error("This drive has no condition of that number")]
    Condition,
    #[error("The window, operand 2, must be 1 to 240 ticks")]
    Window,
    #[error("The wait, operand 1, must be 1 to 240 ticks")]
    Wait,
    #[error("The kept set, operand 3, has a task that this drive lacks")]
    Kept,
    // the operand's own number, as it is shown
    #[error("Operand {0} has no use here and must be 0")]
    Unused(u8),
}

impl Misfit {
    // The byte of the record that does not fit.
    pub fn byte(self) -> u8
        ensures { result ≡ misfit_byte self }
    {
        match self {
            Misfit::Opcode => 0,
            Misfit::Driver | Misfit::Task | Misfit::Condition | Misfit::Wait => 1,
            Misfit::Window => 2,
            Misfit::Kept => 3,
            Misfit::Unused(operand) => operand,
        }
    }
}

// An operand of no use is 0.
fn unused(operand: u8, value: u8) -> Result<(), Misfit>
    ensures { is_ok result ≡ (value == 0) }
{
    ensure(value == 0, Misfit::Unused(operand))
}

impl<'a> Record<'a> {
    // The record at an address, unless the image is too short for it.
    pub fn at(image: &'a [u8], address: u16) -> Option<Record<'a>>
        ensures { MatchOption result (length image.now < 20 * address + 20) (RecordIs image.now address) }
    {
        let start = start_of(address);
        let [opcode, x, y, z, row @ ..] = image.get(start..start + 20)? else {
            return None;
        };
        Some(Record {
            opcode: *opcode,
            x: *x,
            y: *y,
            z: *z,
            row,
        })
    }

    // The opcode and its operands make an instruction, or else the first byte that does not fit.
    pub fn check_operation(&self, sheet: &Sheet) -> Result<(), Misfit>
        ensures { is_ok result ≡ is_some (decoded sheet.now self.now.opcode self.now.x self.now.y self.now.z) }
    {
        let Record { x, y, z, .. } = *self;
        let Ok(opcode) = Opcode::try_from(self.opcode) else {
            return Err(Misfit::Opcode);
        };
        match opcode {
            Opcode::Call => {
                ensure(x < sheet.drivers, Misfit::Driver)?;
                unused(2, y)?;
                unused(3, z)
            }
            Opcode::Release => {
                ensure(x < sheet.tasks, Misfit::Task)?;
                ensure(is_tick_count(y), Misfit::Window)?;
                unused(3, z)
            }
            Opcode::Future => {
                ensure(is_tick_count(x), Misfit::Wait)?;
                ensure(u16::from(z) < 1 << sheet.tasks, Misfit::Kept)
            }
            Opcode::If => {
                ensure(x < sheet.conditions, Misfit::Condition)?;
                unused(3, z)
            }
            Opcode::Jump => {
                unused(1, x)?;
                unused(3, z)
            }
            Opcode::Return => {
                unused(1, x)?;
                unused(2, y)?;
                unused(3, z)
            }
        }
    }
}

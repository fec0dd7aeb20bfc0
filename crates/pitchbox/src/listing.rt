// The listing of a program: a line for each address, with the row as a column for each task.
ghost use Rattle.std.specs.Iterator.{IsFinite};

use crate::names::{Part, TaskSet};
use ecode::code::{Cell, Instruction, Line, Listing};
use std::alloc::{AllocError, Global};
use std::fmt::Write;
use std::{fmt, io};

// An instruction as the listing shows it.
#[derive(Clone, Copy)]
pub struct Shown(pub Instruction);

impl fmt::Display for Shown {
    fn fmt<W: fmt::Write>(&self, f: &mut fmt::Formatter<W>) -> fmt::Result {
        match self.0 {
            Instruction::Call { driver } => write!(f, "call {}", Part::Driver(driver)),
            Instruction::Release { task, window } => {
                write!(f, "release {}, window {window}", Part::Task(task))
            }
            Instruction::Future { wait, to, kept } => {
                write!(f, "future in {wait}, to {to}, keep {}", TaskSet(kept))
            }
            Instruction::If { condition, to } => {
                write!(f, "if {}, to {to}", Part::Condition(condition))
            }
            Instruction::Jump { to } => write!(f, "jump to {to}"),
            Instruction::Return => write!(f, "return"),
        }
    }
}

// What a row says of one task: consumed+remaining ticks of a released one.
#[derive(Clone, Copy)]
pub struct State(pub Cell);

impl fmt::Display for State {
    fn fmt<W: fmt::Write>(&self, f: &mut fmt::Formatter<W>) -> fmt::Result {
        match self.0 {
            Cell::NotHeld => write!(f, "-"),
            Cell::Idle => write!(f, "idle"),
            Cell::Released {
                consumed,
                remaining,
            } => write!(f, "{consumed}+{remaining}"),
        }
    }
}

// The same in words, for a sentence: a type of its own, since only the words differ and they are all of it.
#[derive(Clone, Copy)]
pub struct Told(pub Cell);

impl fmt::Display for Told {
    fn fmt<W: fmt::Write>(&self, f: &mut fmt::Formatter<W>) -> fmt::Result {
        match self.0 {
            Cell::NotHeld => write!(f, "not held"),
            Cell::Idle => write!(f, "idle"),
            Cell::Released {
                consumed,
                remaining,
            } => write!(
                f,
                "released, {consumed} ticks consumed and {remaining} remaining"
            ),
        }
    }
}

// Columns side by side, one for each cell.
fn columns<T: fmt::Display + Drop, I: Iterator<Item = T> + Drop>(
    heap: Global,
    cells: I,
) -> Result<String, AllocError>
    requires can { I.can_next cells }
    requires ends { IsFinite (I.remaining cells) }
{
    let mut text = String::new(heap);
    for cell in cells {
        let column = format!(in heap; "{cell}")?;
        write!(text, "{column:>9}")?;
    }
    Ok(text)
}

fn print_line(rt: &HostRuntime, tasks: u8, a: u16, line: &Line) -> io::Result<()> {
    let heap = rt.alloc();
    let instruction = format!(in heap; "{}", Shown(line.instruction))?;
    let cells = line.row.iter().take(usize::from(tasks));
    let row = columns(heap, cells.map(|cell| State(*cell)))?;
    println!(rt; "  {a:>4}  {instruction:<36}{row}")
}

pub fn print_listing(rt: &HostRuntime, tasks: u8, listing: &Listing) -> io::Result<()> {
    let names = columns(rt.alloc(), (0..tasks).map(Part::Task))?;
    println!(rt; "  {:>4}  {:<36}{names}", "at", "instruction")?;
    for (a, line) in (0..listing.count).zip(&listing.lines) {
        print_line(rt, tasks, a, line)?;
    }
    Ok(())
}

// Which typing rule breaks at an address: what stands behind number 9.
ghost use Rattle.std.specs.Prelude.{◌<◌};

use crate::listing::{Shown, Told};
use crate::names::Part;
use crate::rule::ensure;
use ecode::code::{Cell, Instruction, Line, Listing};
use ecode::lines::line_at;
use ecode::set::has_member;
use ecode::sheet::Sheet;
use std::fmt;
use typing::{
    cell_after, cell_at_target, flows_into, has_next, is_allowed, is_held, parts_with_a_task,
    target_of,
};

// A rule that does not hold, with the task at which it breaks.
#[derive(Clone, Copy, PartialEq, Eq)]
enum Break {
    // the instruction asks something else of the task
    Asks {
        task: u8,
        here: Cell,
    },
    // another state comes to the row at this address than stands there
    Flow {
        task: u8,
        to: u16,
        comes: Cell,
        stands: Cell,
    },
    // a future keeps as many tasks as the row holds
    Keeps,
    // the entry's row does not hold the task
    Entry {
        task: u8,
    },
}

// A line of a listing with those that it leads to: the next, and the one at its target, with the address, if it names one.
#[derive(Clone, Copy)]
struct Step<'a> {
    sheet: &'a Sheet,
    address: u16,
    line: Line,
    next: Line,
    named: Option<(u16, Line)>,
    ghost inside: { address < 200 },
}

impl<'a> Step<'a> {
    // The step at an address of the listing.
    fn at(sheet: &'a Sheet, listing: &Listing, address: u16) -> Option<Step<'a>> {
        if address >= listing.count {
            return None;
        }
        let line = line_at(listing, address);
        Some(Step {
            sheet,
            address,
            line,
            next: line_at(listing, address + 1),
            named: target_of(line.instruction).map(|to| (to, line_at(listing, to))),
        })
    }

    // The rules of one task, whose cells stand at its number in three rows. The third may be missing, so the rows are not zipped.
    fn check_task(&self, t: u8) -> Result<(), Break>
        requires { t < 8 }
    {
        let at = usize::from(t);
        let here = self.line.row[at];
        let instruction = self.line.instruction;
        ensure(
            is_allowed(self.sheet, instruction, t, here),
            Break::Asks { task: t, here },
        )?;
        let comes = cell_after(self.sheet, instruction, t, here);
        let stands = self.next.row[at];
        ensure(
            !has_next(instruction) || flows_into(comes, stands),
            Break::Flow {
                task: t,
                to: self.address + 1,
                comes,
                stands,
            },
        )?;
        let Some((to, named)) = self.named else {
            return Ok(());
        };
        let comes = cell_at_target(instruction, t, here);
        let stands = named.row[at];
        ensure(
            flows_into(comes, stands),
            Break::Flow {
                task: t,
                to,
                comes,
                stands,
            },
        )
    }

    // The row of the entry holds every task.
    fn check_entry(&self) -> Result<(), Break> {
        (0..self.sheet.tasks).zip(self.line.row).try_for_each(|(task, cell)| ensure(
            is_held(cell),
            Break::Entry { task },
        ))
    }

    // The rules of its tasks, then of a future, then of the entry.
    fn check(&self, entry: u16) -> Result<(), Break> {
        (0..self.sheet.tasks).try_for_each(|t| self.check_task(t))?;
        ensure(
            parts_with_a_task(self.line.instruction, &self.line.row),
            Break::Keeps,
        )?;
        if self.address == entry {
            self.check_entry()?;
        }
        Ok(())
    }
}

// An instruction with the rule that breaks there.
#[derive(Clone, Copy, PartialEq, Eq)]
pub struct Broken {
    instruction: Instruction,
    rule: Break,
}

// The first rule that breaks at an address.
pub fn find_break(sheet: &Sheet, listing: &Listing, address: u16) -> Option<Broken> {
    let step = Step::at(sheet, listing, address)?;
    let rule = step.check(listing.entry).err()?;
    Some(Broken {
        instruction: step.line.instruction,
        rule,
    })
}

// What an instruction asks of a task.
fn demand(instruction: Instruction, task: u8) -> &'static str {
    match instruction {
        Instruction::Call { .. } =>
            "idle, or at the end of its window, since the driver uses its ports",
        Instruction::Release { .. } => "idle when it is released",
        Instruction::Future { kept, .. } if has_member(u32::from(kept), task) =>
            "held, since the future keeps it",
        Instruction::Future { .. } =>
            "idle, not held, or released with at least the wait remaining",
        Instruction::Return => "idle or not held at a return",
        Instruction::If { .. } | Instruction::Jump { .. } => "as it is",
    }
}

impl fmt::Display for Broken {
    fn fmt<W: fmt::Write>(&self, f: &mut fmt::Formatter<W>) -> fmt::Result {
        writeln!(f, "  The instruction is: {}.", Shown(self.instruction))?;
        match self.rule {
            Break::Asks { task, here } => {
                let asked = demand(self.instruction, task);
                writeln!(f, "  Here {} is {}.", Part::Task(task), Told(here))?;
                writeln!(f, "  It must be {asked}.")?;
                write!(f, "  Look at the row here, and at what leads here.")
            }
            Break::Flow {
                task,
                to,
                comes,
                stands,
            } => {
                writeln!(f, "  It leaves {} {}.", Part::Task(task), Told(comes))?;
                writeln!(f, "  The row at address {to} has it {}.", Told(stands))?;
                write!(
                    f,
                    "  Look at the rows here and at {to}, and at the ticks of the instruction."
                )
            }
            Break::Keeps => {
                writeln!(
                    f,
                    "  It leaves no task to its binding: it must keep fewer tasks than the row holds."
                )?;
                write!(f, "  Look at its kept set, and at the row here.")
            }
            Break::Entry { task } => {
                let task = Part::Task(task);
                writeln!(
                    f,
                    "  This is the entry. Its row must hold every task, and {task} is not held."
                )?;
                write!(
                    f,
                    "  Look at the row here, and at the entry in the trailer."
                )
            }
        }
    }
}

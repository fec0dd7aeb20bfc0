// The report on an image and budgets that are accepted.
use crate::examine::Accepted;
use crate::listing::print_listing;
use crate::load_fault::share;
use crate::names::{Counted, Part};
use ecode::code::Program;
use ecode::sheet::Sheet;
use fraction::fraction::Fraction;
use loader::load::least_window;
use std::{fmt, io};

// A load, and what it means where it is 0 or 1.
#[derive(Clone, Copy)]
struct Load(Fraction);

impl fmt::Display for Load {
    fn fmt<W: fmt::Write>(&self, f: &mut fmt::Formatter<W>) -> fmt::Result {
        let Load(load) = *self;
        write!(f, "load {load}")?;
        if load.parts == load.whole {
            write!(f, " (exactly full)")?;
        }
        if load.parts == 0 {
            write!(f, " (no task is released)")?;
        }
        Ok(())
    }
}

fn print_task(rt: &HostRuntime, t: u8, budget: u8, window: u8) -> io::Result<()> {
    let name = format!(in rt.alloc(); "{}", Part::Task(t))?;
    match share(budget, window) {
        Some(share) => println!(rt; "  {name:<10}{budget:>8}{window:>14}   {share}"),
        None => println!(rt; "  {name:<10}{budget:>8}             -   not released"),
    }
}

fn print_tasks(rt: &HostRuntime, sheet: &Sheet, program: &Program) -> io::Result<()> {
    println!(rt; "  task        budget  least window   share")?;
    for (t, budget) in (0..sheet.tasks).zip(program.budgets) {
        print_task(rt, t, budget, least_window(&program.listing, t))?;
    }
    Ok(())
}

pub fn print_accepted(rt: &HostRuntime, sheet: &Sheet, accepted: &Accepted) -> io::Result<()> {
    let listing = &accepted.program.listing;
    let entry = listing.entry;
    let instructions = Counted(usize::from(listing.count), "instruction");
    println!(rt; "ACCEPTED  {}", Load(accepted.load))?;
    println!(rt)?;
    print_tasks(rt, sheet, &accepted.program)?;
    println!(rt)?;
    println!(rt; "  entry {entry}, {instructions}")?;
    print_listing(rt, sheet.tasks, listing)
}

// Carries out one command.
use crate::command::{Mistake, Single};
use crate::examine::examine;
use crate::explain::Explained;
use crate::files::{Unread, read_file};
use crate::help::print_help;
use crate::report::print_accepted;
use host::pitch::sheet;
use std::io;
use thiserror::Error;

// What a command came to. Only those of a batch are tried by hand, or told of as failed.
#[derive(Clone, Copy, PartialEq, Eq)]
pub enum Outcome {
    Accepted,
    Refused,
    Failed,
    Helped,
    Tried,
}

// Why a command was not carried out.
#[derive(Debug, Drop, Error)]
pub enum Failure<'a> {
    #[error(transparent)]
    Usage(#[from] Mistake<'a>),
    #[error(transparent)]
    File(#[from] Unread<'a>),
    #[error("cannot go on: {0}")]
    Output(#[from] io::Error),
}

fn run_check<'a>(
    rt: &HostRuntime,
    image: &'a str,
    budgets: &'a str,
) -> Result<Outcome, Failure<'a>> {
    let image = read_file(rt, image)?;
    let budgets = read_file(rt, budgets)?;
    let sheet = sheet();
    match examine(&sheet, image.as_slice(), budgets.as_slice()) {
        Ok(accepted) => {
            print_accepted(rt, &sheet, &accepted)?;
            Ok(Outcome::Accepted)
        }
        Err(fault) => {
            let explained = Explained {
                sheet: &sheet,
                image: image.as_slice(),
                budgets: budgets.as_slice(),
                fault,
            };
            println!(rt; "{explained}")?;
            Ok(Outcome::Refused)
        }
    }
}

pub fn run_single<'a>(rt: &HostRuntime, single: Single<'a>) -> Result<Outcome, Failure<'a>> {
    match single {
        Single::Help => {
            print_help(rt, &sheet())?;
            Ok(Outcome::Helped)
        }
        Single::Check { image, budgets } => run_check(rt, image, budgets),
    }
}

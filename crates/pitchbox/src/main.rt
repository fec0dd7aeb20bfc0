// pitchbox: checks an image of E code with its budget sheet for the pitch drive.
#![tactic(auto)]

mod batch;
mod command;
mod drive;
mod examine;
mod explain;
mod files;
mod hand;
mod help;
mod image_fault;
mod layout;
mod listing;
mod load_fault;
mod names;
mod place;
mod report;
mod rule;
mod run;
mod target;
mod typing_fault;
mod words;

use crate::batch::run_batch;
use crate::command::{Command, parse};
use crate::run::{Failure, Outcome, run_single};
use std::process::ExitCode;
use std::{env, io};

// The status: 1 where an image is refused or a command fails.
fn run_arguments(rt: &HostRuntime) -> io::Result<ExitCode> {
    let given: Vec<String> = env::args(rt)?.skip(1).collect(rt.alloc())?;
    let words: Vec<&str> = given.iter().map(String::as_str).collect(rt.alloc())?;
    let outcome = match parse(words.as_slice()) {
        Ok(Command::Single(single)) => run_single(rt, single),
        Ok(Command::Batch) => {
            run_batch(rt)?;
            return Ok(ExitCode::SUCCESS);
        }
        Err(mistake) => Err(Failure::from(mistake)),
    };
    match outcome {
        Ok(Outcome::Refused) => Ok(ExitCode::FAILURE),
        Ok(_) => Ok(ExitCode::SUCCESS),
        Err(failure) => {
            eprintln!(rt; "pitchbox: {failure}")?;
            eprintln!(rt; "Look at 'pitchbox help'.")?;
            Ok(ExitCode::FAILURE)
        }
    }
}

fn main(rt: HostRuntime) -> ExitCode {
    match run_arguments(&rt) {
        Ok(status) => status,
        Err(error) => {
            let _ = eprintln!(rt; "pitchbox: {error}");
            ExitCode::FAILURE
        }
    }
}

// The commands of standard input, one to a line.
use crate::command::{BatchLine, Command, parse};
use crate::drive::{Drive, answer, fresh_drive, perform, unstopped_drive};
use crate::hand::{Hand, parse_hand};
use crate::names::Counted;
use crate::run::{Failure, Outcome, run_single};
use std::{fmt, io};

// How many commands there were, and what they came to.
#[derive(Clone, Copy, Default)]
struct Tally {
    commands: usize,
    accepted: usize,
    refused: usize,
    failed: usize,
    helped: usize,
    tried: usize,
}

impl Tally {
    fn count(&mut self, outcome: Outcome) {
        self.commands = self.commands.saturating_add(1);
        let counter = match outcome {
            Outcome::Accepted => &mut self.accepted,
            Outcome::Refused => &mut self.refused,
            Outcome::Failed => &mut self.failed,
            Outcome::Helped => &mut self.helped,
            Outcome::Tried => &mut self.tried,
        };
        *counter = counter.saturating_add(1);
    }
}

impl fmt::Display for Tally {
    fn fmt<W: fmt::Write>(&self, f: &mut fmt::Formatter<W>) -> fmt::Result {
        let Tally {
            commands,
            accepted,
            refused,
            failed,
            helped,
            tried,
        } = *self;
        let commands = Counted(commands, "command");
        write!(f, "{commands}: {accepted} accepted, {refused} refused, ")?;
        write!(f, "{failed} failed, {helped} for help, {tried} by hand")
    }
}

// Tells why a command failed.
fn print_failed(rt: &HostRuntime, mistake: impl fmt::Display + Drop) -> io::Result<Outcome> {
    println!(rt; "FAILED  {mistake}")?;
    println!(rt; "  Look at 'pitchbox help'.")?;
    Ok(Outcome::Failed)
}

fn run_hand(rt: &HostRuntime, drive: &mut Drive, hand: Hand) -> io::Result<Outcome> {
    match hand {
        Hand::Fresh(stops) => *drive = fresh_drive(rt, stops.as_slice())?,
        Hand::Ask(question) => answer(rt, drive, question)?,
        Hand::Change(change) => perform(rt, drive, change)?,
    }
    Ok(Outcome::Tried)
}

fn run_other(rt: &HostRuntime, words: &[&str]) -> io::Result<Outcome> {
    let outcome = match parse(words) {
        Ok(Command::Single(single)) => run_single(rt, single),
        Ok(Command::Batch) => {
            println!(rt; "FAILED  a batch does not run another batch")?;
            return Ok(Outcome::Failed);
        }
        Err(mistake) => Err(Failure::from(mistake)),
    };
    // One match over three ends, which `or_else` would only hide.
    match outcome {
        Ok(outcome) => Ok(outcome),
        Err(Failure::Output(error)) => Err(error),
        Err(failure) => print_failed(rt, failure),
    }
}

fn run_command(rt: &HostRuntime, drive: &mut Drive, line: &str) -> io::Result<Outcome> {
    println!(rt; "> {line}")?;
    let words: Vec<&str> = line.split_whitespace().collect(rt.alloc())?;
    let outcome = match parse_hand(rt.alloc(), words.as_slice()) {
        Ok(Some(hand)) => run_hand(rt, drive, hand)?,
        Ok(None) => run_other(rt, words.as_slice())?,
        Err(mistake) => print_failed(rt, mistake)?,
    };
    println!(rt)?;
    Ok(outcome)
}

// What a line's command came to, if it has one.
fn run_line(rt: &HostRuntime, drive: &mut Drive, line: &str) -> io::Result<Option<Outcome>> {
    match BatchLine::from(line) {
        BatchLine::Blank => Ok(None),
        BatchLine::Note(text) => {
            println!(rt; "{text}")?;
            Ok(None)
        }
        BatchLine::Words(text) => Ok(Some(run_command(rt, drive, text)?)),
    }
}

// A line that is no text is a command that fails; another error ends the batch.
fn skip_line(rt: &HostRuntime, error: io::Error) -> io::Result<Outcome> {
    if error.kind() != io::ErrorKind::InvalidData {
        return Err(error);
    }
    println!(rt; "FAILED  this line is no text\n")?;
    Ok(Outcome::Failed)
}

// Runs them all, with a fresh drive at hand. It goes on past a refused image and a command that fails.
pub fn run_batch(rt: &HostRuntime) -> io::Result<()> {
    let mut tally = Tally::default();
    let mut drive = unstopped_drive();
    for line in rt.lines(rt.alloc()) {
        let outcome = match line {
            Ok(text) => run_line(rt, &mut drive, text.as_str())?,
            Err(error) => Some(skip_line(rt, error)?),
        };
        if let Some(outcome) = outcome {
            tally.count(outcome);
        }
    }
    println!(rt; "{tally}")
}

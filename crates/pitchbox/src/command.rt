// The commands, and what may be wrong with one.
use crate::words::{Extra, no_more};
use thiserror::Error;

// What words ask for: the commands of standard input, or a single one.
#[derive(Clone, Copy)]
pub enum Command<'a> {
    Batch,
    Single(Single<'a>),
}

#[derive(Clone, Copy)]
pub enum Single<'a> {
    Help,
    Check { image: &'a str, budgets: &'a str },
}

// Why words make no command.
#[derive(Clone, Copy, Debug, Error)]
pub enum Mistake<'a> {
    #[error("unknown command '{0}'")]
    Unknown(&'a str),
    #[error("check: the image file and the budget file are missing")]
    NoImage,
    #[error("check: the budget file is missing")]
    NoBudgets,
    #[error(transparent)]
    Extra(#[from] Extra<'a>),
}

fn parse_check<'a>(rest: &[&'a str]) -> Result<Single<'a>, Mistake<'a>> {
    match rest {
        [] => Err(Mistake::NoImage),
        [_] => Err(Mistake::NoBudgets),
        [image, budgets, more @ ..] => {
            no_more(more)?;
            Ok(Single::Check {
                image: *image,
                budgets: *budgets,
            })
        }
    }
}

// The command that words make; none at all ask for help.
pub fn parse<'a>(words: &[&'a str]) -> Result<Command<'a>, Mistake<'a>> {
    let [name, rest @ ..] = words else {
        return Ok(Command::Single(Single::Help));
    };
    match *name {
        "check" => Ok(Command::Single(parse_check(rest)?)),
        "batch" => {
            no_more(rest)?;
            Ok(Command::Batch)
        }
        "help" | "--help" | "-h" => {
            no_more(rest)?;
            Ok(Command::Single(Single::Help))
        }
        _ => Err(Mistake::Unknown(*name)),
    }
}

// A line of a batch, without the blanks around it: nothing, a note that begins with #, or the words of a command.
#[derive(Clone, Copy)]
pub enum BatchLine<'a> {
    Blank,
    Note(&'a str),
    Words(&'a str),
}

impl<'a> From<&'a str> for BatchLine<'a> {
    fn from(line: &'a str) -> BatchLine<'a> {
        let text = line.trim();
        if text.is_empty() {
            BatchLine::Blank
        } else if text.starts_with('#') {
            BatchLine::Note(text)
        } else {
            BatchLine::Words(text)
        }
    }
}

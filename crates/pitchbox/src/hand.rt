// The commands of a batch by which a drive is tried by hand.
use crate::words::{Extra, no_more};
use host::stop::Stop;
use std::alloc::{AllocError, Global};
use std::str::FromStr;
use thiserror::Error;

// What is asked of the drive.
#[derive(Clone, Copy)]
pub enum Question {
    Sheet,
    Ports,
    Look { port: u8 },
    Test { condition: u8 },
}

// What is done with the drive.
#[derive(Clone, Copy)]
pub enum Change {
    Put { port: u8, value: i32 },
    Drive { driver: u8 },
    Work { task: u8 },
}

// A command of a drive tried by hand: a fresh host with end stops, or one for the host at hand.
#[derive(Drop)]
pub enum Hand {
    Fresh(Vec<Stop>),
    Ask(Question),
    Change(Change),
}

// Why words make no such command.
#[derive(Debug, Drop, Error)]
pub enum HandMistake<'a> {
    // what the command wants behind it
    #[error("the command is: {0}")]
    Wants(&'static str),
    #[error("'{0}' is no whole number, or too large or small for its place")]
    NoNumber(&'a str),
    #[error("there is no drive '{0}': it is 'pitch'")]
    NoDrive(&'a str),
    #[error(transparent)]
    Extra(#[from] Extra<'a>),
    #[error("out of memory")]
    NoMemory(#[from(alloc)] AllocError),
}

// A word as a number of the type that its place wants.
fn number<'a, T: FromStr>(word: &'a str) -> Result<T, HandMistake<'a>>
where
    T::Err: Drop,
{
    word.parse::<T>().map_err(|_| HandMistake::NoNumber(word))
}

// The one number behind a command.
fn one<'a>(rest: &[&'a str], usage: &'static str) -> Result<u8, HandMistake<'a>> {
    let [word, more @ ..] = rest else {
        return Err(HandMistake::Wants(usage));
    };
    no_more(more)?;
    number(*word)
}

fn put<'a>(rest: &[&'a str]) -> Result<Change, HandMistake<'a>> {
    let [port, value, more @ ..] = rest else {
        return Err(HandMistake::Wants("put PORT VALUE"));
    };
    no_more(more)?;
    Ok(Change::Put {
        port: number(*port)?,
        value: number(*value)?,
    })
}

const FRESH: &str = "host pitch [stops PORT LOW HIGH]...";

// An end stop, named by four words.
fn named_stop<'a>(words: &[&'a str]) -> Result<Stop, HandMistake<'a>> {
    let ["stops", port, low, high] = words else {
        return Err(HandMistake::Wants(FRESH));
    };
    Ok(Stop {
        port: number(*port)?,
        low: number(*low)?,
        high: number(*high)?,
    })
}

fn fresh<'a>(heap: Global, rest: &[&'a str]) -> Result<Vec<Stop>, HandMistake<'a>> {
    match rest {
        ["pitch", names @ ..] => names.chunks(4).map(named_stop).try_collect(heap),
        [word, ..] => Err(HandMistake::NoDrive(*word)),
        [] => Err(HandMistake::Wants(FRESH)),
    }
}

// The command that words make, or none where they are no command of this kind.
pub fn parse_hand<'a>(heap: Global, words: &[&'a str]) -> Result<Option<Hand>, HandMistake<'a>> {
    let [name, rest @ ..] = words else {
        return Ok(None);
    };
    let hand = match *name {
        "host" => Hand::Fresh(fresh(heap, rest)?),
        "sheet" => {
            no_more(rest)?;
            Hand::Ask(Question::Sheet)
        }
        "ports" => {
            no_more(rest)?;
            Hand::Ask(Question::Ports)
        }
        "put" => Hand::Change(put(rest)?),
        "drive" => Hand::Change(Change::Drive {
            driver: one(rest, "drive DRIVER")?,
        }),
        "work" => Hand::Change(Change::Work {
            task: one(rest, "work TASK")?,
        }),
        "look" => Hand::Ask(Question::Look {
            port: one(rest, "look PORT")?,
        }),
        "test" => Hand::Ask(Question::Test {
            condition: one(rest, "test CONDITION")?,
        }),
        _ => return Ok(None),
    };
    Ok(Some(hand))
}

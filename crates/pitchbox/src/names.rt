// The names of the pitch drive's parts, and how sets and numbers of them are told.
ghost use Rattle.std.specs.Prelude.{◌≡◌};
ghost use Rattle.pitchbox.specs.Names.{is_part_of};

use ecode::fault::Layer;
use ecode::port::PortKind;
use ecode::set::has_member;
use ecode::sheet::Sheet;
use std::fmt;

// The word for a part of one kind, and the names of all of them in the order of their numbers.
#[derive(Clone, Copy)]
struct Kind {
    word: &'static str,
    names: &'static [&'static str],
}

const PORT: Kind = Kind {
    word: "port",
    names: &[
        "angle",
        "selector",
        "filtered angle",
        "raw angle",
        "command",
        "control's output",
        "filter's output",
        "filter's memory",
    ],
};

const TASK: Kind = Kind {
    word: "task",
    names: &["control", "filter"],
};

const DRIVER: Kind = Kind {
    word: "driver",
    names: &["sample", "filtered", "command"],
};

const CONDITION: Kind = Kind {
    word: "condition",
    names: &["selector"],
};

// A part of the drive by its number. It is shown by name, or as its kind and number where it has none.
#[derive(Clone, Copy, PartialEq, Eq)]
pub enum Part {
    Port(u8),
    Task(u8),
    Driver(u8),
    Condition(u8),
}

impl Part {
    pub fn number(self) -> u8 {
        match self {
            Part::Port(n) | Part::Task(n) | Part::Driver(n) | Part::Condition(n) => n,
        }
    }

    fn kind(self) -> Kind {
        match self {
            Part::Port(_) => PORT,
            Part::Task(_) => TASK,
            Part::Driver(_) => DRIVER,
            Part::Condition(_) => CONDITION,
        }
    }

    pub fn name(self) -> Option<&'static str> {
        self.kind().names.get(usize::from(self.number())).copied()
    }

    // Whether a sheet has it.
    pub fn is_of(self, sheet: &Sheet) -> bool
        ensures { result ≡ is_part_of sheet.now self }
    {
        match self {
            Part::Port(n) => n < sheet.ports,
            Part::Task(n) => n < sheet.tasks,
            Part::Driver(n) => n < sheet.drivers,
            Part::Condition(n) => n < sheet.conditions,
        }
    }
}

impl fmt::Display for Part {
    fn fmt<W: fmt::Write>(&self, f: &mut fmt::Formatter<W>) -> fmt::Result {
        match self.name() {
            Some(name) => write!(f, "{name}"),
            None => write!(f, "{} {}", self.kind().word, self.number()),
        }
    }
}

// The parts whose numbers a mask has, bit n for part n, or what is said where it has none.
fn write_members<W: fmt::Write, P: Fn(u8) -> Part>(
    f: &mut fmt::Formatter<W>,
    mask: u32,
    part: P,
    none: &str,
) -> fmt::Result
    requires { P.IsAlwaysCallable part }
{
    let mut members = (0..32u8).filter(|n| has_member(mask, *n));
    let Some(first) = members.next() else {
        return write!(f, "{none}");
    };
    write!(f, "{}", part(first))?;
    for n in members {
        write!(f, " and {}", part(n))?;
    }
    Ok(())
}

// A set of tasks.
#[derive(Clone, Copy)]
pub struct TaskSet(pub u8);

impl fmt::Display for TaskSet {
    fn fmt<W: fmt::Write>(&self, f: &mut fmt::Formatter<W>) -> fmt::Result {
        write_members(f, u32::from(self.0), Part::Task, "no task")
    }
}

// A set of ports.
#[derive(Clone, Copy)]
pub struct PortSet(pub u32);

impl fmt::Display for PortSet {
    fn fmt<W: fmt::Write>(&self, f: &mut fmt::Formatter<W>) -> fmt::Result {
        write_members(f, self.0, Part::Port, "nothing")
    }
}

// A number of things, by their name for one.
#[derive(Clone, Copy)]
pub struct Counted(pub usize, pub &'static str);

impl fmt::Display for Counted {
    fn fmt<W: fmt::Write>(&self, f: &mut fmt::Formatter<W>) -> fmt::Result {
        match *self {
            Counted(1, thing) => write!(f, "1 {thing}"),
            Counted(number, thing) => write!(f, "{number} {thing}s"),
        }
    }
}

// What the check has words for, shown by its word. One impl for each kind: only the words differ, and they are all of it.
#[derive(Clone, Copy)]
pub struct Named<T>(pub T);

impl fmt::Display for Named<Layer> {
    fn fmt<W: fmt::Write>(&self, f: &mut fmt::Formatter<W>) -> fmt::Result {
        f.pad(match self.0 {
            Layer::Image => "image",
            Layer::Check => "check",
            Layer::Load => "load",
        })
    }
}

impl fmt::Display for Named<PortKind> {
    fn fmt<W: fmt::Write>(&self, f: &mut fmt::Formatter<W>) -> fmt::Result {
        f.pad(match self.0 {
            PortKind::Sensor => "sensor",
            PortKind::Driver => "driver",
            PortKind::Task => "task",
        })
    }
}

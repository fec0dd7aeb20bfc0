// A drive at hand: a host with end stops, and what the commands of a batch do with it.
use crate::hand::{Change, Question};
use crate::help::{print_conditions, print_drive};
use crate::names::{Named, Part};
use ecode::port::PortKind;
use ecode::sheet::Sheet;
use host::end_stops::EndStops;
use host::host::Host;
use host::pitch;
use host::pitch_host::PitchHost;
use host::stop::{Stop, StopTable};
use std::{array, io};

// The pitch drive with its end stops.
pub type Drive = EndStops<PitchHost>;

// A fresh drive without end stops.
pub fn unstopped_drive() -> Drive {
    EndStops::new(PitchHost::new(), &[])
}

fn print_stop(rt: &HostRuntime, stop: Stop) -> io::Result<()> {
    let Stop { port, low, high } = stop;
    println!(rt; "  {} is held within {low} to {high}", Part::Port(port))
}

fn is_driver_port(sheet: &Sheet, port: u8) -> bool {
    Part::Port(port).is_of(sheet)
        && matches!(sheet.kinds.get(usize::from(port)), Some(PortKind::Driver))
}

// Why a name is ignored where so many are kept.
fn print_ignored(rt: &HostRuntime, sheet: &Sheet, stop: Stop, kept: usize) -> io::Result<()> {
    let why = if !is_driver_port(sheet, stop.port) {
        "it is no driver port"
    } else if stop.low > stop.high {
        "its low is above its high"
    } else if kept >= 4 {
        "four are kept"
    } else {
        "it has end stops already"
    };
    println!(rt; "  {} is ignored: {why}", Part::Port(stop.port))
}

// A fresh drive, and which of the end stops named it keeps.
pub fn fresh_drive(rt: &HostRuntime, stops: &[Stop]) -> io::Result<Drive> {
    println!(rt; "a fresh pitch drive, every port at 0")?;
    let sheet = pitch::sheet();
    let mut kept = 0;
    for (n, &stop) in stops.iter().enumerate() {
        let now_kept = StopTable::new(&sheet, &stops[..=n]).in_use().len();
        if now_kept > kept {
            print_stop(rt, stop)?;
        } else {
            print_ignored(rt, &sheet, stop, kept)?;
        }
        kept = now_kept;
    }
    Ok(EndStops::new(PitchHost::new(), stops))
}

fn print_port(rt: &HostRuntime, p: u8, kind: PortKind, value: Option<i32>) -> io::Result<()> {
    let name = format!(in rt.alloc(); "{}", Part::Port(p))?;
    let kind = Named(kind);
    match value {
        Some(value) => println!(rt; "  {p:>2}  {name:<17} {kind:<7} {value:>11}"),
        None => println!(rt; "  {p:>2}  {name:<17} {kind}"),
    }
}

fn print_sheet(rt: &HostRuntime, sheet: &Sheet) -> io::Result<()> {
    println!(rt; "  ports, by number from 0")?;
    for (p, kind) in (0..sheet.ports).zip(sheet.kinds) {
        print_port(rt, p, kind, None)?;
    }
    print_drive(rt, sheet)?;
    print_conditions(rt, sheet)
}

fn print_ports<H: Host>(rt: &HostRuntime, host: &H) -> io::Result<()> {
    let sheet = host.sheet();
    for (p, kind) in (0..sheet.ports).zip(sheet.kinds) {
        print_port(rt, p, kind, Some(host.look(p)))?;
    }
    Ok(())
}

// The values of all ports.
fn readings<H: Host>(host: &H) -> [i32; 32] {
    array::from_fn(|p| host.look(p as u8))
}

// Which ports changed.
fn print_changes(rt: &HostRuntime, before: &[i32; 32], after: &[i32; 32]) -> io::Result<()> {
    if before == after {
        return println!(rt; "  no port changes");
    }
    for (p, (old, new)) in (0..32u8).zip(before.iter().zip(after)) {
        if old != new {
            println!(rt; "  {}: {old} becomes {new}", Part::Port(p))?;
        }
    }
    Ok(())
}

// A number that the sheet lacks is no error of the host: it changes nothing, and the answer is 0 or no.
fn print_lack(rt: &HostRuntime, sheet: &Sheet, part: Part) -> io::Result<()> {
    if !part.is_of(sheet) {
        println!(rt; "  this drive has no {part}")?;
    }
    Ok(())
}

fn print_look<H: Host>(rt: &HostRuntime, host: &H, port: u8) -> io::Result<()> {
    print_lack(rt, &host.sheet(), Part::Port(port))?;
    println!(rt; "  {}", host.look(port))
}

fn print_test<H: Host>(rt: &HostRuntime, host: &H, condition: u8) -> io::Result<()> {
    print_lack(rt, &host.sheet(), Part::Condition(condition))?;
    let answer = if host.test(condition) { "yes" } else { "no" };
    println!(rt; "  {answer}")
}

pub fn answer<H: Host>(rt: &HostRuntime, host: &H, question: Question) -> io::Result<()> {
    match question {
        Question::Sheet => print_sheet(rt, &host.sheet()),
        Question::Ports => print_ports(rt, host),
        Question::Look { port } => print_look(rt, host, port),
        Question::Test { condition } => print_test(rt, host, condition),
    }
}

impl Change {
    // The part that it is done with.
    fn part(self) -> Part {
        match self {
            Change::Put { port, .. } => Part::Port(port),
            Change::Drive { driver } => Part::Driver(driver),
            Change::Work { task } => Part::Task(task),
        }
    }

    fn apply<H: Host>(self, host: &mut H) {
        match self {
            Change::Put { port, value } => host.put(port, value),
            Change::Drive { driver } => host.drive(driver),
            Change::Work { task } => host.work(task),
        }
    }
}

pub fn perform<H: Host>(rt: &HostRuntime, host: &mut H, change: Change) -> io::Result<()> {
    print_lack(rt, &host.sheet(), change.part())?;
    let before = readings(host);
    change.apply(host);
    print_changes(rt, &before, &readings(host))
}

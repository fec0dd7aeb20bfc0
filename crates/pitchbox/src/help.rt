// What the program is for and how it is used.
use crate::names::{Part, PortSet};
use ecode::sheet::Sheet;
use std::io;

const USAGE: &str = "pitchbox checks an image of E code with its budget sheet for the pitch drive.

USAGE
  pitchbox check IMAGE BUDGETS   check an image with its budget sheet
  pitchbox batch                 run the commands of standard input, one to a line
  pitchbox help                  this text; so do --help, -h and no word at all

FILES
  IMAGE    1 to 200 records of 20 bytes, at the addresses 0, 1, 2 .., then a trailer of 8
    record   opcode, operands 1 to 3, then a pair of bytes for each of the tasks 0 to 7:
             ticks consumed and remaining; 254 0 for idle, 255 0 for not held
    opcodes  1 call DRIVER, 2 release TASK WINDOW, 3 future WAIT ADDRESS KEPT,
             4 if CONDITION ADDRESS, 5 jump 0 ADDRESS, 6 return; unused operands are 0
    trailer  length of the records (2 bytes, the high one first), entry,
             numbers of tasks, drivers and conditions, form 01, mark E5
  BUDGETS  one byte for each task, in their order: its budget, 1 to 240 ticks
  A file of more than 1 MiB is not read: no image is as large.

THE DRIVE
";

const ANSWERS: &str = "
ANSWERS
  ACCEPTED  the load, the tasks with budget, least window and share, and the listing.
            The listing has a column for each task: consumed+remaining ticks, idle,
            or - where the task is not held.
  REFUSED   the number of the first rule that is broken, the place, the layer, and why:

  number  place    layer  what is wrong
       1  byte     image  the image is shorter than a trailer
       2  byte     image  the form or the mark
       3  byte     image  the length of the records
       4  byte     image  the numbers of tasks, drivers and conditions
       5  byte     image  the entry is no address of the image
       6  address  image  the opcode or an operand
       7  address  image  a pair of the row
       8  address  image  an address that the instruction goes to
       9  address  check  the rows do not follow from the instructions
      10  task     load   the number of budgets, or a budget
      11  task     load   the load is more than 1

BATCH
  Each command is shown after '> '. A blank line is skipped, and a line that begins with #
  is shown as it is. A refused image or a failed command does not end the batch.
  File names have no spaces there.

BY HAND
  In a batch a drive can be tried by hand. It begins as a fresh one with no end stops.
  Ports, drivers, tasks and conditions go by number.
  host pitch [stops PORT LOW HIGH]...
                     a fresh drive, every port at 0, with up to four driver ports held
                     within end stops; a name that is no driver port, repeats one that is
                     kept or has its low above its high is ignored
  sheet              the ports, drivers, tasks and conditions
  ports              every port with its value
  put PORT VALUE     set one port        look PORT        its value
  drive DRIVER       call a driver       test CONDITION   yes or no
  work TASK          run a task to its end

STATUS
  0 for an accepted image, for help and for a batch; 1 for a refused image and for a
  command that fails, whose message is on standard error.

EXAMPLES
  pitchbox check two-rate.img two-rate.bud
  pitchbox batch < commands.txt
";

fn print_wires(rt: &HostRuntime, part: Part, from: u32, to: u32) -> io::Result<()> {
    let number = part.number();
    let name = format!(in rt.alloc(); "{part}")?;
    println!(rt;
        "         {number} {name:<9} {} to {}",
        PortSet(from),
        PortSet(to)
    )
}

// The parts of the drive: for drivers and tasks the ports that they read and write.
pub fn print_drive(rt: &HostRuntime, sheet: &Sheet) -> io::Result<()> {
    println!(rt; "  drivers, by number from 0, with the ports they read and write")?;
    for (d, driver) in (0..sheet.drivers).zip(sheet.driver_ports) {
        print_wires(rt, Part::Driver(d), driver.reads, driver.writes)?;
    }
    println!(rt; "  tasks, by number from 0, with the ports they read and own")?;
    for (t, task) in (0..sheet.tasks).zip(sheet.task_ports) {
        print_wires(rt, Part::Task(t), task.sees, task.owns)?;
    }
    Ok(())
}

pub fn print_conditions(rt: &HostRuntime, sheet: &Sheet) -> io::Result<()> {
    println!(rt; "  conditions, by number from 0, with the ports they look at")?;
    for (c, looks) in (0..sheet.conditions).zip(sheet.looks) {
        let name = format!(in rt.alloc(); "{}", Part::Condition(c))?;
        println!(rt; "         {c} {name:<9} {} is not 0", PortSet(looks))?;
    }
    Ok(())
}

pub fn print_help(rt: &HostRuntime, sheet: &Sheet) -> io::Result<()> {
    rt.print(USAGE)?;
    print_drive(rt, sheet)?;
    print_conditions(rt, sheet)?;
    rt.print(ANSWERS)
}

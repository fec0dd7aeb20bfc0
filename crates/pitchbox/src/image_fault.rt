// What is wrong with an image: the bytes behind the numbers 1 to 8.
use crate::layout::{Counts, Pair, Record, Trailer, records, start_of};
use crate::names::{Counted, Part};
use crate::target::{Astray, check_target};
use ecode::fault::ImageFault;
use ecode::sheet::Sheet;
use image::Opcode;
use std::fmt;

// An image with a fault of its layout.
#[derive(Clone, Copy)]
pub struct BadImage<'a> {
    pub sheet: &'a Sheet,
    pub image: &'a [u8],
    pub fault: ImageFault,
}

// What is wrong with the length that a trailer tells, where so many bytes stand before it.
fn length_rule(told: usize, before: usize) -> &'static str {
    if told == 0 {
        "An image has at least one record, of 20 bytes"
    } else if told % 20 != 0 {
        "The length must be a multiple of 20, the bytes of a record"
    } else if told > 4000 {
        "The length must be at most 4000, for 200 records"
    } else if told > before {
        "The file is too short for that"
    } else {
        "The file is too long for that"
    }
}

fn write_ending<W: fmt::Write>(
    f: &mut fmt::Formatter<W>,
    trailer: Trailer,
    at: usize,
) -> fmt::Result {
    let Trailer { form, mark, .. } = trailer;
    let last = at.saturating_add(1);
    writeln!(f, "  The image ends in the bytes {form:02X} {mark:02X}.")?;
    writeln!(f, "  It must end in 01 E5, the form and the mark.")?;
    if form == 1 {
        write!(f, "  Look at byte {last}, the mark.")
    } else if mark == 0xe5 {
        write!(f, "  Look at byte {at}, the form.")
    } else {
        write!(
            f,
            "  Look at bytes {at} and {last}: the file may be no image, or not end there."
        )
    }
}

fn write_length<W: fmt::Write>(
    f: &mut fmt::Formatter<W>,
    trailer: Trailer,
    before: usize,
) -> fmt::Result {
    let told = usize::from(trailer.length);
    let low = before.saturating_add(1);
    let rule = length_rule(told, before);
    writeln!(
        f,
        "  The trailer tells {told} bytes of records, and {before} stand before it."
    )?;
    writeln!(f, "  {rule}.")?;
    write!(
        f,
        "  Look at bytes {before} and {low}, the length, and at the size of the file."
    )
}

// The first pair of a record's row that says nothing of its task.
fn bad_pair(record: Record<'_>, tasks: u8) -> Option<Pair> {
    (0..8u8)
        .zip(record.row.as_chunks::<2>().0)
        .map(|(task, &[consumed, remaining])| Pair {
            task,
            consumed,
            remaining,
        })
        .find(|pair| !pair.fits(tasks))
}

// Why an address that an instruction goes to is no good, with its opcode and the address that it names.
fn find_astray(record: Record<'_>, address: u16, count: usize) -> Option<(Opcode, u8, Astray)> {
    let opcode = Opcode::try_from(record.opcode).ok()?;
    let astray = check_target(opcode, record.y, address, count).err()?;
    Some((opcode, record.y, astray))
}

impl BadImage<'_> {
    fn write_short<W: fmt::Write>(&self, f: &mut fmt::Formatter<W>) -> fmt::Result {
        let bytes = Counted(self.image.len(), "byte");
        writeln!(
            f,
            "  The image has {bytes}, fewer than the 8 of its trailer."
        )?;
        write!(
            f,
            "  Look at the file: it was cut short, or it is no image."
        )
    }

    fn write_counts<W: fmt::Write>(
        &self,
        f: &mut fmt::Formatter<W>,
        trailer: Trailer,
        at: usize,
    ) -> fmt::Result {
        let told = trailer.counts;
        let own = Counts::from(self.sheet);
        let last = at.saturating_add(2);
        writeln!(f, "  The trailer tells of {told}.")?;
        writeln!(f, "  This drive has {own}.")?;
        write!(
            f,
            "  Look at bytes {at} to {last}: the image may be for another drive."
        )
    }

    fn write_entry<W: fmt::Write>(
        &self,
        f: &mut fmt::Formatter<W>,
        trailer: Trailer,
        at: usize,
    ) -> fmt::Result {
        let entry = trailer.entry;
        let last = records(self.image).saturating_sub(1);
        writeln!(
            f,
            "  The entry is address {entry}, and the image has the addresses 0 to {last}."
        )?;
        write!(f, "  Look at byte {at}, the entry.")
    }

    fn write_operation<W: fmt::Write>(
        &self,
        f: &mut fmt::Formatter<W>,
        address: u16,
    ) -> fmt::Result {
        let Some(record) = Record::at(self.image, address) else {
            return write!(f, "  Look at this record.");
        };
        let Record {
            opcode,
            x,
            y,
            z,
            ..
        } = record;
        write!(f, "  The record has opcode {opcode} (")?;
        match Opcode::try_from(opcode) {
            Ok(known) => write!(f, "{known}")?,
            Err(unknown) => write!(f, "{unknown}")?,
        }
        writeln!(f, ") and operands {x} {y} {z}.")?;
        let Err(misfit) = record.check_operation(self.sheet) else {
            return write!(f, "  Look at this record.");
        };
        let at = start_of(address) + usize::from(misfit.byte());
        write!(f, "  {misfit}.\n  Look at byte {at}.")
    }

    fn write_pair<W: fmt::Write>(&self, f: &mut fmt::Formatter<W>, address: u16) -> fmt::Result {
        let tasks = self.sheet.tasks;
        let record = Record::at(self.image, address);
        let Some(pair) = record.and_then(|record| bad_pair(record, tasks)) else {
            return write!(f, "  Look at the row of this record.");
        };
        let Pair {
            task,
            consumed,
            remaining,
        } = pair;
        let name = Part::Task(task);
        writeln!(
            f,
            "  In this row the pair of {name} is {consumed}, {remaining}."
        )?;
        if task < tasks {
            writeln!(
                f,
                "  Consumed and remaining ticks must come to 1 to 240 together;"
            )?;
            writeln!(
                f,
                "  254, 0 is an idle task, and 255, 0 one that is not held."
            )?;
        } else {
            writeln!(
                f,
                "  This drive has no such task, so its pair must be 255, 0."
            )?;
        }
        let at = start_of(address) + 4 + 2 * usize::from(task);
        write!(f, "  Look at bytes {at} and {}.", at + 1)
    }

    fn write_target<W: fmt::Write>(&self, f: &mut fmt::Formatter<W>, address: u16) -> fmt::Result {
        let count = records(self.image);
        let record = Record::at(self.image, address);
        let found = record.and_then(|record| find_astray(record, address, count));
        let Some((opcode, to, astray)) = found else {
            return write!(f, "  Look at this record and the address that it names.");
        };
        let last = count.saturating_sub(1);
        let at = start_of(address) + 2;
        match astray {
            Astray::NoNext => {
                writeln!(
                    f,
                    "  This {opcode} goes on to the next address, and it is the last instruction."
                )?;
                write!(f, "  Look at the end of the code: a return may be lacking.")
            }
            Astray::Outside => {
                writeln!(
                    f,
                    "  This {opcode} names address {to}, and the image has 0 to {last}."
                )?;
                write!(f, "  Look at byte {at}, the address.")
            }
            Astray::NotHigher => {
                writeln!(
                    f,
                    "  This {opcode} names address {to}, and must name one above its own."
                )?;
                write!(f, "  Look at byte {at}, the address.")
            }
        }
    }
}

impl fmt::Display for BadImage<'_> {
    fn fmt<W: fmt::Write>(&self, f: &mut fmt::Formatter<W>) -> fmt::Result {
        let Some(trailer) = Trailer::of(self.image) else {
            return self.write_short(f);
        };
        match self.fault {
            ImageFault::TooShort => self.write_short(f),
            ImageFault::FormOrMark { place } => write_ending(f, trailer, place),
            ImageFault::RecordLength { place } => write_length(f, trailer, place),
            ImageFault::Counts { place } => self.write_counts(f, trailer, place),
            ImageFault::Entry { place } => self.write_entry(f, trailer, place),
            ImageFault::Operation { address } => self.write_operation(f, address),
            ImageFault::RowPair { address } => self.write_pair(f, address),
            ImageFault::Target { address } => self.write_target(f, address),
        }
    }
}

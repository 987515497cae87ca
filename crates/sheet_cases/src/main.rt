//! Reads good and damaged sheets, and compares each answer with a second, plain reading of the rules: number, place, and the field at fault.
#![tactic(auto)]

use arrayvec::ArrayString;
use binary_plans::left_to_right;
use plain_numbers::Refused;
use plain_numbers::refused::{FIELD, SHEET_LINE, STEP_NUMBER, TOO_LONG};
use plans::{MOST_STEPS, NO_STEP, Plan};
use refusals::Refusal;
use sheets::{SheetReader, write_sheet};
use std::fmt::Write;
use std::num::Saturating;
use std::{fmt, io};

// A line's bytes.
const LINE: usize = 32;

// The bytes of a sheet of 7 lines, and of one of 129.
const SEVEN: usize = 224;

const MANY: usize = 4128;

// A byte of each class.
const CLASSES: [u8; 10] = [b' ', b'0', b'1', b'9', b'x', b'+', b'\n', b'\t', 0, 255];

// Why a text is refused: the number and the place, and the field at fault where there is one.
#[derive(Clone, Copy, PartialEq, Eq)]
struct Fault<'a> {
    refused: Refused,
    field: Option<&'a [u8]>,
}

impl<'a> Fault<'a> {
    // A fault that is no field's.
    fn at(number: u8, place: u64) -> Self {
        Fault {
            refused: Refused(number, place),
            field: None,
        }
    }

    // The fault of a field.
    fn of(field: &'a [u8], number: u8, place: u64) -> Self {
        Fault {
            refused: Refused(number, place),
            field: Some(field),
        }
    }
}

// The number in a field, read from its last byte back; nothing where it is malformed.
fn plain_number(field: &[u8]) -> Option<u64> {
    let mut value = 0u64;
    let mut unit = 1u64;
    let mut digits = 0usize;
    let mut last = b'0';
    let mut blanks = false;
    for c in field.iter().rev().copied() {
        if c == b' ' {
            blanks = true;
        } else if blanks || !c.is_ascii_digit() {
            return None;
        } else {
            value = value.wrapping_add(unit.wrapping_mul(u64::from(c - b'0')));
            unit = unit.wrapping_mul(10);
            digits = digits.saturating_add(1);
            last = c;
        }
    }
    if digits == 0 || (last == b'0' && digits > 1) {
        return None;
    }
    Some(value)
}

// The number in a field of a line of this number.
fn plain_field<'a>(field: &'a [u8], place: u64) -> Result<u64, Fault<'a>> {
    plain_number(field).ok_or(Fault::of(field, FIELD, place))
}

// A line of this number, by the rules.
fn plain_line<'a>(line: &'a [u8], place: u64) -> Result<(), Fault<'a>> {
    if line.len() != LINE || line.last() != Some(&b'\n') {
        return Err(Fault::at(SHEET_LINE, place));
    }
    let number = plain_field(&line[..4], place)?;
    plain_field(&line[4..8], place)?;
    plain_field(&line[8..12], place)?;
    plain_field(&line[12..31], place)?;
    if number != place {
        return Err(Fault::of(&line[..4], STEP_NUMBER, place));
    }
    Ok(())
}

// The steps of a text by the rules, for a table that is long enough.
fn plain_reading<'a>(text: &'a [u8]) -> Result<usize, Fault<'a>> {
    if text.len() % LINE != 0 {
        return Err(Fault::at(SHEET_LINE, 0));
    }
    let lines = text.len() / LINE;
    if lines > MOST_STEPS {
        return Err(Fault::at(TOO_LONG, 129));
    }
    for (line, place) in text.chunks(LINE).zip(1..) {
        plain_line(line, place)?;
    }
    Ok(lines)
}

// Whether the reader says of a text what the rules say.
fn agrees(text: &[u8], expected: Result<usize, Fault<'_>>) -> bool {
    let mut table = [NO_STEP; MOST_STEPS];
    let mut reader = SheetReader::new(text);
    let told = reader.read(&mut table).map_err(Refused::from);
    let field = reader.field_at_fault();
    match expected {
        Ok(lines) => told == Ok(lines) && field.is_none(),
        Err(e) => told == Err(e.refused) && field == e.field,
    }
}

// How many sheets were read, how many were refused for each cause, and how many answers differ from the rules.
#[derive(Clone, Copy, Default)]
struct Tally {
    read: Saturating<u32>,
    newline: Saturating<u32>,
    field: Saturating<u32>,
    number: Saturating<u32>,
    differ: Saturating<u32>,
}

impl fmt::Display for Tally {
    fn fmt<W: fmt::Write>(&self, f: &mut fmt::Formatter<W>) -> fmt::Result {
        let Tally {
            read,
            newline,
            field,
            number,
            differ,
        } = self;
        write!(
            f,
            "{read} read, {newline} refused 4, {field} refused 5, {number} refused 6; "
        )?;
        write!(f, "{differ} differ from the rules")
    }
}

impl Tally {
    fn count(&mut self, text: &[u8]) {
        let expected = plain_reading(text);
        match expected.map_err(|e| e.refused.0) {
            Ok(_) => self.read += 1,
            Err(SHEET_LINE) => self.newline += 1,
            Err(FIELD) => self.field += 1,
            Err(_) => self.number += 1,
        }
        self.differ += u32::from(!agrees(text, expected));
    }
}

// Each byte of the first, a middle and the last line, replaced by a byte of each class.
fn damage(sheet: &[u8; SEVEN]) -> Tally {
    let mut tally = Tally::default();
    for line in [0, 3, 6] {
        for column in 0..LINE {
            for class in CLASSES {
                let mut text = *sheet;
                text[LINE * line + column] = class;
                tally.count(&text);
            }
        }
    }
    tally
}

// The sheet of 23 by the left to right method.
fn sheet_of_23() -> Result<[u8; SEVEN], Refusal> {
    let mut table = [NO_STEP; MOST_STEPS];
    let length = left_to_right(23, &mut table)?;
    let plan = Plan::new(23, &table[..length])?;
    let mut bytes = [0u8; SEVEN];
    write_sheet(&plan, &mut bytes)?;
    Ok(bytes)
}

// A sheet of 129 lines that counts 1, 2, 3 and on.
fn long_sheet() -> Result<ArrayString<MANY>, fmt::Error> {
    let mut text = ArrayString::new();
    for line in 0..129u64 {
        writeln!(text, "{:4}{:4}{:4}{:19}", line + 1, line, 0, line + 2)?;
    }
    Ok(text)
}

fn print_row(rt: &HostRuntime, what: &str, text: &[u8], places: usize) -> io::Result<()> {
    let mut table = [NO_STEP; MOST_STEPS];
    let room = places.min(MOST_STEPS);
    let mut reader = SheetReader::new(text);
    match reader.read(&mut table[..room]).map_err(Refused::from) {
        Ok(count) => println!(rt; "{what}: read, {count} steps"),
        Err(e) => println!(rt; "{what}: {e}"),
    }
}

// The first bytes of a text, or all of it.
fn front(text: &[u8], size: usize) -> &[u8] {
    text.get(..size).unwrap_or(text)
}

fn print_lengths(rt: &HostRuntime, sheet: &[u8], many: &[u8]) -> io::Result<()> {
    print_row(rt, "empty sheet", &[], 0)?;
    print_row(rt, "7 lines", sheet, 7)?;
    print_row(rt, "7 lines, table of 6", sheet, 6)?;
    print_row(rt, "one byte less", front(sheet, 223), 7)?;
    print_row(rt, "one byte more", front(many, 225), 8)?;
    print_row(rt, "128 lines", front(many, 4096), 128)?;
    print_row(rt, "129 lines", many, 128)
}

fn main(rt: HostRuntime) -> io::Result<()> {
    let Ok(sheet) = sheet_of_23() else {
        return println!(rt; "no sheet of 23");
    };
    let Ok(long) = long_sheet() else {
        return println!(rt; "no sheet of 129 lines");
    };
    print_lengths(&rt, &sheet, long.as_bytes())?;
    let tally = damage(&sheet);
    println!(rt; "damaged sheets: {tally}")
}

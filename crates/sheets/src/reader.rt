//! A view of a sheet's text.
ghost use Rattle.std.specs.Prelude.{◌≡◌, ◌+◌, length, take, IfSome, is_ok, IfOk, Decides};
ghost use Rattle.std.specs.Option.{option_map};
ghost use Rattle.sheets.specs.Sheets.{sheet, IsSheet};
ghost use Rattle.sheets.specs.Reading.{read_sheet, counted, filled};
ghost use Rattle.sheets.specs.Places.{place_of, outset, standing, fault_place, field_at_fault, offset};

use crate::fault::Place;
use crate::line::LINE_BYTES;
use crate::text::{first_fault, lines_within, read_lines, text_lines};
use plans::Step;
use refusals::Refusal;

/// A sheet's text, with the line that the reader stands at, counted from 0, and the column of it that was found at fault.
#[derive(Clone, Copy)]
pub struct SheetReader<'a> {
    text: &'a [u8],
    place: Place,
}

impl<'a> SheetReader<'a> {
    /// A reader at the first line of a text.
    pub fn new(text: &'a [u8]) -> SheetReader<'a>
        ensures text { result.text ≡ text.entry }
        ensures place { place_of result ≡ outset }
    {
        SheetReader {
            text,
            place: Place::after(0),
        }
    }

    /// Reads the text's steps into the first places of the table, and answers how many they are. A refused text leaves the table as it was.
    pub fn read(&mut self, table: &mut [Step]) -> Result<usize, Refusal>
        ensures answer { result ≡ counted (read_sheet self.old.text.now (length table.old)) }
        ensures after { table.new ≡ filled (read_sheet self.old.text.now (length table.old)) table.old }
        ensures exactly { Decides (is_ok result) (IsSheet (length table.old) self.old.text.now) }
        ensures text { self.new.text ≡ self.old.text }
        ensures place { place_of self.new ≡ standing self.old.text.now (length table.old) }
        ensures back { IfOk result (λ n. sheet (take n table.new) ≡ self.old.text.now) }
    {
        self.place = Place::after(0);
        let lines = lines_within(self.text, table.len())?;
        if let Some(found) = first_fault(lines) {
            self.place = found.place();
            return Err(found.fault.refusal);
        }
        read_lines(lines, table);
        self.place = Place::after(lines.len());
        Ok(lines.len())
    }

    /// The field at fault, as the part of the text that it fills, where the first fault of the text is a malformed field or a
    /// wrong step number; nothing where it is another, or there is none.
    pub fn field_at_fault(&self) -> Option<&'a [u8]>
        ensures part { option_map (λ x. x.now) result ≡ field_at_fault self.now.text.now }
        ensures position { IfSome result (λ x. x.ref_ptr ≡ (self.now.text.ref_ptr.0, self.now.text.ref_ptr.1 + offset (fault_place self.now.text.now))) }
    {
        let text = self.text;
        let lines = text_lines(text).ok()?;
        let found = first_fault(lines)?;
        let span = found.fault.column?.span();
        let line = LINE_BYTES * found.before;
        Some(&text[line + span.start..line + span.end])
    }
}

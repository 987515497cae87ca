//! The lines of a text: cut from it, searched for a fault, and read.
ghost use Rattle.std.specs.Prelude.{◌≡◌, ℕ, ◌+◌, ◌<◌, ◌≤◌, [], ◌++◌, length, drop, slice_index_or, EachIndex, Ok, Err, MatchOption, MatchResult, IfNone, IfSome, IfOk, IsOk};
ghost use Rattle.sheets.specs.Reading.{text_lines, room_for, lines_from, read_line, Reads, steps_in};

use crate::fault::Found;
use crate::line::{LINE_BYTES, read_line};
use plans::{MOST_STEPS, Step};
use refusals::Refusal;

// The lines of a text.
pub(crate) fn text_lines(text: &[u8]) -> Result<&[[u8; LINE_BYTES]], Refusal>
    ensures count { MatchResult result (λ lines. text_lines (length text.now) ≡ Ok (length lines.now)) (λ e. text_lines (length text.now) ≡ Err e) }
    ensures lines { IfOk result (λ lines. lines.now ≡ lines_from (length lines.now) 0 text.now) }
{
    let (lines, rest) = text.as_chunks::<LINE_BYTES>();
    if !rest.is_empty() {
        return Err(Refusal::SheetLine(0));
    }
    if lines.len() > MOST_STEPS {
        return Err(Refusal::TooLong);
    }
    Ok(lines)
}

// The same, for a table of so many places.
pub(crate) fn lines_within(text: &[u8], places: usize) -> Result<&[[u8; LINE_BYTES]], Refusal>
    ensures count { MatchResult result (λ lines. room_for places (text_lines (length text.now)) ≡ Ok (length lines.now)) (λ e. room_for places (text_lines (length text.now)) ≡ Err e) }
    ensures lines { IfOk result (λ lines. lines.now ≡ lines_from (length lines.now) 0 text.now) }
{
    let lines = text_lines(text)?;
    if lines.len() > places {
        return Err(Refusal::TableShort(lines.len() as u64));
    }
    Ok(lines)
}

// The fault of the line after so many others, if it has one.
fn fault_after(before: usize, line: &[u8; LINE_BYTES]) -> Option<Found>
    requires { before < usize.MAX }
    ensures { MatchOption result (IsOk (read_line (before + 1) line.now)) (λ f. (f.before ≡ before) × (read_line (before + 1) line.now ≡ Err f.fault)) }
{
    let fault = read_line(line, before + 1).err()?;
    Some(Found { before, fault })
}

// The first fault of the lines, if there is one.
pub(crate) fn first_fault(lines: &[[u8; LINE_BYTES]]) -> Option<Found>
    ensures none { IfNone result (EachIndex lines.now (Reads lines.now)) }
    ensures some { IfSome result (λ f. (f.before < length lines.now) × (read_line (f.before + 1) (slice_index_or lines.now f.before []) ≡ Err f.fault) × ((k : ℕ) → k < f.before → Reads lines.now k)) }
{
    lines
        .iter()
        .enumerate()
        .find_map(|(before, line)| fault_after(before, line))
}

// Reads the lines, each of which holds a step, into the first places of the table.
pub(crate) fn read_lines(lines: &[[u8; LINE_BYTES]], table: &mut [Step])
    requires room { length lines.now ≤ length table.old }
    requires clean { EachIndex lines.now (Reads lines.now) }
    ensures { table.new ≡ steps_in 0 lines.now ++ drop (length lines.now) table.old }
{
    for (i, line) in lines.iter().enumerate() {
        table[i] = read_line(line, i + 1).unwrap();
    }
}

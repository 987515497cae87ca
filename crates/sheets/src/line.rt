//! A line of a sheet.
ghost use Rattle.std.specs.Prelude.{◌≡◌, ◌^◌, ◌<◌, IfOk};
ghost use Rattle.fields.specs.Field.{field_value};
ghost use Rattle.sheets.specs.Columns.{cell, put_cell, width};
ghost use Rattle.sheets.specs.Lines.{line, Writable};
ghost use Rattle.sheets.specs.Reading.{number_in, read_line};

use crate::column::Column;
use crate::fault::Fault;
use fields::{parse_field, write_field};
use plans::Step;
use refusals::Refusal;

/// The bytes of a line.
pub const LINE_BYTES: usize = 32;

// Writes a number into a column of a line, where the column has room for it.
fn write_number(line: &mut [u8; LINE_BYTES], column: Column, v: u64)
    ensures { line.new ≡ put_cell column v line.old }
{
    write_field(&mut line[column.span()], v);
}

// Step number `i` as a line: its number, the two values that it cites, its value, and a newline.
pub(crate) fn write_line(i: usize, step: &Step) -> [u8; LINE_BYTES]
    requires number { i < 10 ^ 4 }
    requires step { Writable step.now }
    ensures { result ≡ line i step.now }
{
    let mut line = [b' '; LINE_BYTES];
    write_number(&mut line, Column::Number, i as u64);
    write_number(&mut line, Column::First, u64::from(step.j));
    write_number(&mut line, Column::Second, u64::from(step.k));
    write_number(&mut line, Column::Value, step.value);
    line[LINE_BYTES - 1] = b'\n';
    line
}

// The number in a column of line `i`.
fn number_in(line: &[u8; LINE_BYTES], i: usize, column: Column) -> Result<u64, Fault>
    ensures value { result ≡ number_in i column (field_value (cell column line.now)) }
    ensures bound { IfOk result (λ v. v < 10 ^ width column) }
{
    parse_field(&line[column.span()]).ok_or(Fault {
        refusal: Refusal::Field(i as u64),
        column: Some(column),
    })
}

// The step in line `i`: its newline is checked, then its columns from the left, then its step number.
pub(crate) fn read_line(line: &[u8; LINE_BYTES], i: usize) -> Result<Step, Fault>
    ensures { result ≡ read_line i line.now }
{
    if line[LINE_BYTES - 1] != b'\n' {
        return Err(Fault {
            refusal: Refusal::SheetLine(i as u64),
            column: None,
        });
    }
    let number = number_in(line, i, Column::Number)?;
    let j = number_in(line, i, Column::First)?;
    let k = number_in(line, i, Column::Second)?;
    let value = number_in(line, i, Column::Value)?;
    if number != i as u64 {
        return Err(Fault {
            refusal: Refusal::StepNumber(i as u64),
            column: Some(Column::Number),
        });
    }
    Ok(Step {
        j: j as u16,
        k: k as u16,
        value,
    })
}

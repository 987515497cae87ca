//! What the plan program is asked.
ghost use Rattle.std.specs.Prelude.{◌≡◌, ◌≤◌, length};
ghost use Rattle.fields.specs.Field.{field_value};
ghost use Rattle.methods.specs.Requests.{number_in, request_of};

use fields::parse_field;
use refusals::Refusal;

/// A method by its number and width, and an exponent.
#[derive(Clone, Copy)]
pub struct PlanRequest {
    pub method: u64,
    pub width: u64,
    pub exponent: u64,
}

// The number in a field of the line.
fn number_in(field: &[u8]) -> Result<u64, Refusal>
    ensures { result ≡ number_in (field_value field.now) }
{
    parse_field(field).ok_or(Refusal::Field(1))
}

/// The request of a line: method in columns 1 to 4, width in 5 to 8, exponent in 9 to 27, and a newline.
pub fn parse_request(line: &[u8]) -> Result<PlanRequest, Refusal>
    ensures value { result ≡ request_of line.now }
{
    if line.len() != 28 || line[27] != b'\n' {
        return Err(Refusal::SheetLine(1));
    }
    let method = number_in(&line[0..4])?;
    let width = number_in(&line[4..8])?;
    let exponent = number_in(&line[8..27])?;
    Ok(PlanRequest {
        method,
        width,
        exponent,
    })
}

//! A refusal by its number and its place.
ghost use Rattle.std.specs.Prelude.{◌≡◌, Some};
ghost use Rattle.refusals.specs.Codes.{code};
ghost use Rattle.plain_numbers.specs.Refusals.{refused_text};

use refusals::Refusal;
use std::fmt;

// The numbers of the refusals by the rules, written out apart from the code that gives them.

/// The exponent is outside 1 to 2^63 - 1.
pub const EXPONENT: u8 = 1;

/// No such method, no such width, or an exponent above the method's limit.
pub const METHOD: u8 = 2;

/// Over 128 steps.
pub const TOO_LONG: u8 = 3;

/// The sheet's length, or the newline of a line.
pub const SHEET_LINE: u8 = 4;

/// A malformed field.
pub const FIELD: u8 = 5;

/// The step number on a line is not the line's own.
pub const STEP_NUMBER: u8 = 6;

/// A step cites a value that is not earlier, or cites in the wrong order.
pub const CITATION: u8 = 7;

/// The value of a step is not the sum of the two that it cites.
pub const NOT_SUM: u8 = 8;

/// The value of a step does not exceed the one before it, or exceeds the exponent.
pub const NOT_RISING: u8 = 9;

/// The last value is not the exponent.
pub const NOT_REACHED: u8 = 10;

/// A value that is not native to the kind.
pub const NOT_NATIVE: u8 = 11;

/// There is no cell of this number.
pub const NO_SUCH_CELL: u8 = 13;

/// The caller's table has too few places.
pub const TABLE_SHORT: u8 = 14;

/// The cell is empty.
pub const CELL_EMPTY: u8 = 21;

/// The allowance is 0.
pub const ALLOWANCE_SPENT: u8 = 22;

/// The plan needs more cells than the unit has.
pub const NEED_ABOVE: u8 = 23;

/// The plan has more steps than the allowance.
pub const ALLOWANCE_BELOW: u8 = 24;

/// A refusal as the tables have it: its number, and its place.
#[derive(Clone, Copy, PartialEq, Eq, Debug)]
pub struct Refused(pub u8, pub u64);

impl From<Refusal> for Refused {
    ghost from_gives = { λ e r. (r.0 ≡ (code e).number) × (r.1 ≡ (code e).place) };

    fn from(e: Refusal) -> Refused {
        Refused(e.number(), e.place())
    }
}

impl fmt::Display for Refused {
    ghost output = { λ r. Some (refused_text r.0 r.1) };

    fn fmt<W: fmt::Write>(&self, f: &mut fmt::Formatter<W>) -> fmt::Result {
        let Refused(number, place) = self;
        write!(f, "refused {number} at {place}")
    }
}

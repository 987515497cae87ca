//! What is wrong with a line, and where a reader stands.
ghost use Rattle.std.specs.Prelude.{◌≡◌, None};
ghost use Rattle.sheets.specs.Places.{at, place_in};

use crate::column::Column;
use refusals::Refusal;

/// A refusal of a line, and the column at fault where there is one.
#[derive(Clone, Copy, Debug)]
pub(crate) struct Fault {
    pub(crate) refusal: Refusal,
    pub(crate) column: Option<Column>,
}

/// A fault in a text, with the number of lines before it.
#[derive(Clone, Copy)]
pub(crate) struct Found {
    pub(crate) before: usize,
    pub(crate) fault: Fault,
}

/// A line, by the number of lines before it, and the column at fault, if one is.
#[derive(Clone, Copy)]
pub(crate) struct Place {
    pub(crate) line: usize,
    pub(crate) column: Option<Column>,
}

impl Place {
    // After so many lines without a fault.
    pub(crate) fn after(lines: usize) -> Place
        ensures { result ≡ at lines None }
    {
        Place {
            line: lines,
            column: None,
        }
    }
}

impl Found {
    // Where the fault is.
    pub(crate) fn place(self) -> Place
        ensures { result ≡ place_in self }
    {
        Place {
            line: self.before,
            column: self.fault.column,
        }
    }
}

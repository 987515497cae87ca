//! The columns of a line.
ghost use Rattle.std.specs.Prelude.{◌≡◌, ◌+◌};
ghost use Rattle.sheets.specs.Columns.{start, width};

use std::ops::Range;

/// The fields of a line, from the left: the step number, the two values that the step cites, and its value.
#[derive(Clone, Copy, Debug)]
pub(crate) enum Column {
    Number,
    First,
    Second,
    Value,
}

impl Column {
    // The bytes of a line that the column has.
    pub(crate) fn span(self) -> Range<usize>
        ensures { result ≡ record { start = start self; end = start self + width self } }
    {
        match self {
            Column::Number => 0..4,
            Column::First => 4..8,
            Column::Second => 8..12,
            Column::Value => 12..31,
        }
    }
}

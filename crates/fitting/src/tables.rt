//! The lent working memory.
ghost use Rattle.std.specs.Prelude.{◌≡◌};
ghost use Rattle.fitting.specs.Sheets.{blank};

use plans::{MOST_STEPS, MOST_VALUES, NO_STEP, Step};

/// What a fitting writes: the steps of the sheet, the steps of the trimmed plan, the cells of its values, and its exponents as the run sheet has them.
#[derive(Clone, Copy)]
pub struct Tables {
    pub steps: [Step; MOST_STEPS],
    pub trimmed: [Step; MOST_STEPS],
    pub cells: [u8; MOST_VALUES],
    pub exponents: [u64; MOST_STEPS],
}

impl Tables {
    /// Tables of zeros.
    pub fn new() -> Tables
        ensures value { result ≡ blank }
    {
        Tables {
            steps: [NO_STEP; MOST_STEPS],
            trimmed: [NO_STEP; MOST_STEPS],
            cells: [0; MOST_VALUES],
            exponents: [0; MOST_STEPS],
        }
    }
}

//! The lists of calls, each call with its answer written out from the rules, and the sheets that they take.
use jobs::Stage;
use plain_numbers::known::{EIGHT, ONE, SEVEN, TWENTY_THREE};
use plain_numbers::{KnownPlan, LARGEST_COUNT, Refused};
use plans::{NO_STEP, Step};
use sheets::LINE_BYTES;

/// What a call does; values are plain numbers.
#[derive(Clone, Copy)]
pub(crate) enum Ask {
    /// Loads the value into the cell.
    Load(u8, u64),
    /// Reads the cell.
    Read(u8),
    /// Runs the plan from the base.
    Run(KnownPlan, u64),
    /// Carries the sheet through its stages for the exponent and the base.
    Job(&'static [u8], u64, u64),
}

/// What a call answers: done, with a value if it hands one out, or refused, and a job with the stage that refused.
#[derive(Clone, Copy, PartialEq, Eq)]
pub(crate) enum Told {
    Loaded(Result<(), Refused>),
    Read(Result<u64, Refused>),
    Ran(Result<u64, Refused>),
    Job(Result<u64, (Stage, Refused)>),
}

/// A list of calls with their answers, whose refusals are rows of numbers as the rules give them, and the cells and the allowance of the unit that it is made on.
#[derive(Clone, Copy)]
pub(crate) struct List {
    pub(crate) cells: u8,
    pub(crate) start: u64,
    pub(crate) rows: &'static [(Ask, Told)],
}

/// The places of the step table that jobs read into.
pub(crate) const TABLE: usize = 8;

impl Ask {
    /// How many multiplications are made for it, if it is accepted.
    pub(crate) fn length(self) -> usize {
        match self {
            Ask::Load(_, _) | Ask::Read(_) => 0,
            Ask::Run(plan, _) => plan.steps.len(),
            Ask::Job(sheet, _, _) => sheet.len() / LINE_BYTES,
        }
    }
}

impl Told {
    /// Whether the call is refused.
    pub(crate) fn is_refused(self) -> bool {
        match self {
            Told::Loaded(answer) => answer.is_err(),
            Told::Read(answer) | Told::Ran(answer) => answer.is_err(),
            Told::Job(answer) => answer.is_err(),
        }
    }
}

/// What the step table holds after each list: the four steps of 7, which are read last, then what is left of the six of 23, and two places that were never written.
pub(crate) fn table_after() -> [Step; TABLE] {
    let mut table = [NO_STEP; TABLE];
    for plan in [TWENTY_THREE, SEVEN] {
        for (place, step) in table.iter_mut().zip(plan.steps) {
            *place = *step;
        }
    }
    table
}

// The sheet of 1 2 3.
const SHEET_3: &[u8] = b"   1   0   0                  2
   2   1   0                  3
";

// The sheet of the plan of 7.
const SHEET_7: &[u8] = b"   1   0   0                  2
   2   1   1                  4
   3   2   1                  6
   4   3   0                  7
";

// The sheet of the plan of 23.
const SHEET_23: &[u8] = b"   1   0   0                  2
   2   1   0                  3
   3   2   1                  5
   4   3   3                 10
   5   4   2                 13
   6   5   4                 23
";

// A sheet of ten lines, two more than the step table has places.
const SHEET_156: &[u8] = b"   1   0   0                  2
   2   1   0                  3
   3   2   0                  4
   4   3   3                  8
   5   4   0                  9
   6   5   5                 18
   7   6   6                 36
   8   7   2                 39
   9   8   8                 78
  10   9   9                156
";

// The sheet of 3 without its last byte.
const CUT: &[u8] = b"   1   0   0                  2
   2   1   0                  3";

// The sheet of 3 with a blank for the newline of line 1.
const JOINED: &[u8] = b"   1   0   0                  2    2   1   0                  3\n";

// The sheet of 3 with a letter for its last value.
const NO_NUMBER: &[u8] = b"   1   0   0                  2
   2   1   0                  x
";

// The sheet of 3 with another step number on line 2.
const MISCOUNTED: &[u8] = b"   1   0   0                  2
   3   1   0                  3
";

// Step 2 cites value 0 before value 1.
const UNORDERED: &[u8] = b"   1   0   0                  2
   2   0   1                  3
";

// Step 2 gives 4 for 2 + 1.
const NOT_SUM: &[u8] = b"   1   0   0                  2
   2   1   0                  4
";

// Step 2 is 2 again.
const NOT_RISING: &[u8] = b"   1   0   0                  2
   2   0   0                  2
";

// A value that is native neither to counts nor to polynomials modulo 0x8000_0000_0000_0003.
const FOREIGN: u64 = 0x8000_0000_0000_0000;

/// A bank of counts.
pub(crate) static COUNTS: List = List {
    cells: 32,
    start: 30,
    rows: &[
        (Ask::Read(0), Told::Read(Err(Refused(21, 0)))),
        (Ask::Load(0, 5), Told::Loaded(Ok(()))),
        (Ask::Read(0), Told::Read(Ok(5))),
        (Ask::Load(32, 5), Told::Loaded(Err(Refused(13, 32)))),
        (Ask::Load(1, FOREIGN), Told::Loaded(Err(Refused(11, 0)))),
        (Ask::Load(200, FOREIGN), Told::Loaded(Err(Refused(13, 200)))),
        (Ask::Read(1), Told::Read(Err(Refused(21, 1)))),
        (Ask::Read(32), Told::Read(Err(Refused(13, 32)))),
        (Ask::Load(31, 77), Told::Loaded(Ok(()))),
        (Ask::Run(TWENTY_THREE, 3), Told::Ran(Ok(69))),
        (Ask::Run(SEVEN, FOREIGN), Told::Ran(Err(Refused(11, 0)))),
        (Ask::Run(ONE, 11), Told::Ran(Ok(11))),
        (Ask::Read(0), Told::Read(Ok(11))),
        (
            Ask::Run(EIGHT, 0x2000_0000_0000_0000),
            Told::Ran(Ok(LARGEST_COUNT)),
        ),
        (Ask::Read(0), Told::Read(Ok(LARGEST_COUNT))),
        (Ask::Read(31), Told::Read(Ok(77))),
        (Ask::Job(SHEET_7, 7, 6), Told::Job(Ok(42))),
        (
            Ask::Job(CUT, 3, 7),
            Told::Job(Err((Stage::Reading, Refused(4, 0)))),
        ),
        (
            Ask::Job(NO_NUMBER, 3, 7),
            Told::Job(Err((Stage::Reading, Refused(5, 2)))),
        ),
        (
            Ask::Job(MISCOUNTED, 3, 7),
            Told::Job(Err((Stage::Reading, Refused(6, 2)))),
        ),
        (
            Ask::Job(SHEET_156, 156, 1),
            Told::Job(Err((Stage::Reading, Refused(14, 10)))),
        ),
        (
            Ask::Job(NOT_SUM, 4, 7),
            Told::Job(Err((Stage::Admission, Refused(8, 2)))),
        ),
        (
            Ask::Job(SHEET_3, 4, 7),
            Told::Job(Err((Stage::Admission, Refused(10, 2)))),
        ),
        (
            Ask::Job(SHEET_3, 0, 7),
            Told::Job(Err((Stage::Admission, Refused(1, 0)))),
        ),
        (
            Ask::Job(SHEET_23, 23, FOREIGN),
            Told::Job(Err((Stage::Running, Refused(11, 0)))),
        ),
        (Ask::Job(SHEET_23, 23, 100), Told::Job(Ok(2300))),
        (Ask::Run(TWENTY_THREE, 0), Told::Ran(Ok(0))),
        (Ask::Run(SEVEN, 1), Told::Ran(Ok(7))),
        (Ask::Run(SEVEN, 1), Told::Ran(Err(Refused(24, 4)))),
        (
            Ask::Job(SHEET_23, 23, 1),
            Told::Job(Err((Stage::Running, Refused(24, 6)))),
        ),
        (Ask::Run(EIGHT, 1), Told::Ran(Err(Refused(24, 3)))),
        (
            Ask::Job(SHEET_7, 7, 1),
            Told::Job(Err((Stage::Running, Refused(24, 4)))),
        ),
        (Ask::Run(ONE, 9), Told::Ran(Ok(9))),
        (Ask::Read(31), Told::Read(Ok(77))),
        (
            Ask::Job(CUT, 3, 7),
            Told::Job(Err((Stage::Reading, Refused(4, 0)))),
        ),
    ],
};

/// A bank of residues of 97.
pub(crate) static RESIDUES: List = List {
    cells: 32,
    start: 20,
    rows: &[
        (Ask::Read(31), Told::Read(Err(Refused(21, 31)))),
        (Ask::Load(31, 96), Told::Loaded(Ok(()))),
        (Ask::Load(30, 97), Told::Loaded(Err(Refused(11, 0)))),
        (Ask::Load(32, 97), Told::Loaded(Err(Refused(13, 32)))),
        (Ask::Read(255), Told::Read(Err(Refused(13, 255)))),
        (Ask::Read(31), Told::Read(Ok(96))),
        (Ask::Run(SEVEN, 5), Told::Ran(Ok(40))),
        (Ask::Run(TWENTY_THREE, 97), Told::Ran(Err(Refused(11, 0)))),
        (Ask::Run(EIGHT, 10), Told::Ran(Ok(81))),
        (Ask::Read(0), Told::Read(Ok(81))),
        (Ask::Job(SHEET_23, 23, 10), Told::Job(Ok(56))),
        (
            Ask::Job(CUT, 3, 5),
            Told::Job(Err((Stage::Reading, Refused(4, 0)))),
        ),
        (
            Ask::Job(JOINED, 3, 5),
            Told::Job(Err((Stage::Reading, Refused(4, 1)))),
        ),
        (
            Ask::Job(NO_NUMBER, 3, 5),
            Told::Job(Err((Stage::Reading, Refused(5, 2)))),
        ),
        (
            Ask::Job(NOT_SUM, 4, 5),
            Told::Job(Err((Stage::Admission, Refused(8, 2)))),
        ),
        (
            Ask::Job(NOT_RISING, 3, 5),
            Told::Job(Err((Stage::Admission, Refused(9, 2)))),
        ),
        (
            Ask::Job(SHEET_7, 8, 5),
            Told::Job(Err((Stage::Admission, Refused(10, 4)))),
        ),
        (
            Ask::Job(SHEET_7, 7, 97),
            Told::Job(Err((Stage::Running, Refused(11, 0)))),
        ),
        (Ask::Run(TWENTY_THREE, 0), Told::Ran(Ok(0))),
        (Ask::Run(EIGHT, 5), Told::Ran(Err(Refused(24, 3)))),
        (
            Ask::Job(SHEET_7, 7, 5),
            Told::Job(Err((Stage::Running, Refused(24, 4)))),
        ),
        (Ask::Run(ONE, 96), Told::Ran(Ok(96))),
        (Ask::Read(0), Told::Read(Ok(96))),
        (Ask::Read(31), Told::Read(Ok(96))),
        (
            Ask::Job(MISCOUNTED, 3, 5),
            Told::Job(Err((Stage::Reading, Refused(6, 2)))),
        ),
    ],
};

/// A bank of polynomials modulo 0x11b.
pub(crate) static POLYNOMIALS: List = List {
    cells: 32,
    start: 17,
    rows: &[
        (Ask::Load(0, 0x100), Told::Loaded(Err(Refused(11, 0)))),
        (Ask::Load(0, 0xff), Told::Loaded(Ok(()))),
        (Ask::Read(0), Told::Read(Ok(0xff))),
        (Ask::Load(32, 1), Told::Loaded(Err(Refused(13, 32)))),
        (Ask::Read(1), Told::Read(Err(Refused(21, 1)))),
        (Ask::Read(40), Told::Read(Err(Refused(13, 40)))),
        (Ask::Load(9, 0x53), Told::Loaded(Ok(()))),
        (Ask::Run(EIGHT, 3), Told::Ran(Ok(0x1a))),
        (Ask::Run(SEVEN, 0x53), Told::Ran(Ok(0x9e))),
        (Ask::Run(ONE, 0x100), Told::Ran(Err(Refused(11, 0)))),
        (Ask::Job(SHEET_23, 23, 2), Told::Job(Ok(0xd4))),
        (
            Ask::Job(CUT, 3, 2),
            Told::Job(Err((Stage::Reading, Refused(4, 0)))),
        ),
        (
            Ask::Job(NO_NUMBER, 3, 2),
            Told::Job(Err((Stage::Reading, Refused(5, 2)))),
        ),
        (
            Ask::Job(SHEET_156, 156, 2),
            Told::Job(Err((Stage::Reading, Refused(14, 10)))),
        ),
        (
            Ask::Job(UNORDERED, 3, 2),
            Told::Job(Err((Stage::Admission, Refused(7, 2)))),
        ),
        (
            Ask::Job(NOT_SUM, 4, 2),
            Told::Job(Err((Stage::Admission, Refused(8, 2)))),
        ),
        (
            Ask::Job(SHEET_7, 0, 2),
            Told::Job(Err((Stage::Admission, Refused(1, 0)))),
        ),
        (Ask::Run(TWENTY_THREE, 3), Told::Ran(Err(Refused(24, 6)))),
        (
            Ask::Job(SHEET_23, 23, 0x100),
            Told::Job(Err((Stage::Running, Refused(11, 0)))),
        ),
        (
            Ask::Job(SHEET_23, 23, 3),
            Told::Job(Err((Stage::Running, Refused(24, 6)))),
        ),
        (Ask::Job(SHEET_7, 7, 0xff), Told::Job(Ok(0xf5))),
        (Ask::Run(ONE, 0xff), Told::Ran(Ok(0xff))),
        (Ask::Run(EIGHT, 0xff), Told::Ran(Err(Refused(24, 3)))),
        (Ask::Read(9), Told::Read(Ok(0x53))),
        (Ask::Read(0), Told::Read(Ok(0xff))),
    ],
};

/// A quota of 14 on a window of two cells on a bank of residues of 4,294,967,295.
pub(crate) static QUOTA_ON_WINDOW: List = List {
    cells: 2,
    start: 14,
    rows: &[
        (Ask::Read(0), Told::Read(Err(Refused(21, 0)))),
        (Ask::Load(2, 3), Told::Loaded(Err(Refused(13, 2)))),
        (Ask::Load(1, 4294967295), Told::Loaded(Err(Refused(11, 0)))),
        (Ask::Load(1, 65537), Told::Loaded(Ok(()))),
        (Ask::Read(1), Told::Read(Ok(65537))),
        (Ask::Read(2), Told::Read(Err(Refused(13, 2)))),
        (Ask::Run(SEVEN, 4294967295), Told::Ran(Err(Refused(11, 0)))),
        (Ask::Run(SEVEN, 3), Told::Ran(Err(Refused(23, 3)))),
        (
            Ask::Job(SHEET_7, 7, 3),
            Told::Job(Err((Stage::Running, Refused(23, 3)))),
        ),
        (Ask::Run(EIGHT, 3), Told::Ran(Ok(6561))),
        (Ask::Read(0), Told::Read(Ok(6561))),
        (Ask::Read(1), Told::Read(Ok(65537))),
        (Ask::Run(TWENTY_THREE, 3), Told::Ran(Ok(3948865632))),
        (
            Ask::Job(CUT, 3, 3),
            Told::Job(Err((Stage::Reading, Refused(4, 0)))),
        ),
        (
            Ask::Job(NO_NUMBER, 3, 3),
            Told::Job(Err((Stage::Reading, Refused(5, 2)))),
        ),
        (
            Ask::Job(NOT_SUM, 4, 3),
            Told::Job(Err((Stage::Admission, Refused(8, 2)))),
        ),
        (
            Ask::Job(SHEET_23, 23, 4294967295),
            Told::Job(Err((Stage::Running, Refused(11, 0)))),
        ),
        (
            Ask::Job(SHEET_23, 23, 65537),
            Told::Job(Err((Stage::Running, Refused(24, 6)))),
        ),
        (
            Ask::Run(TWENTY_THREE, 65537),
            Told::Ran(Err(Refused(24, 6))),
        ),
        (Ask::Run(SEVEN, 65537), Told::Ran(Err(Refused(23, 3)))),
        (Ask::Job(SHEET_3, 3, 65537), Told::Job(Ok(262148))),
        (Ask::Run(EIGHT, 4294967294), Told::Ran(Ok(1))),
        (Ask::Read(0), Told::Read(Ok(1))),
        (Ask::Run(ONE, 7), Told::Ran(Ok(7))),
        (
            Ask::Job(SHEET_7, 7, 65537),
            Told::Job(Err((Stage::Running, Refused(23, 3)))),
        ),
        (Ask::Run(EIGHT, 7), Told::Ran(Err(Refused(24, 3)))),
    ],
};

/// A run sheet on a quota of 20 on a bank of polynomials modulo 0x8000_0000_0000_0003 with an allowance of 15.
pub(crate) static SHEET_ON_QUOTA: List = List {
    cells: 32,
    start: 15,
    rows: &[
        (Ask::Load(31, 0x0123_4567_89ab_cdef), Told::Loaded(Ok(()))),
        (Ask::Load(31, FOREIGN), Told::Loaded(Err(Refused(11, 0)))),
        (Ask::Load(32, 1), Told::Loaded(Err(Refused(13, 32)))),
        (Ask::Read(31), Told::Read(Ok(0x0123_4567_89ab_cdef))),
        (Ask::Read(0), Told::Read(Err(Refused(21, 0)))),
        (Ask::Read(32), Told::Read(Err(Refused(13, 32)))),
        (Ask::Run(SEVEN, 2), Told::Ran(Ok(0x80))),
        (Ask::Run(SEVEN, FOREIGN), Told::Ran(Err(Refused(11, 0)))),
        (
            Ask::Run(EIGHT, 0x7fff_ffff_ffff_ffff),
            Told::Ran(Ok(0x36b6_b6b6_b6b6_b6b7)),
        ),
        (Ask::Read(0), Told::Read(Ok(0x36b6_b6b6_b6b6_b6b7))),
        (
            Ask::Job(CUT, 3, 2),
            Told::Job(Err((Stage::Reading, Refused(4, 0)))),
        ),
        (
            Ask::Job(NO_NUMBER, 3, 2),
            Told::Job(Err((Stage::Reading, Refused(5, 2)))),
        ),
        (
            Ask::Job(MISCOUNTED, 3, 2),
            Told::Job(Err((Stage::Reading, Refused(6, 2)))),
        ),
        (
            Ask::Job(SHEET_23, 23, FOREIGN),
            Told::Job(Err((Stage::Running, Refused(11, 0)))),
        ),
        (Ask::Job(SHEET_23, 23, 3), Told::Job(Ok(0x00ff_00ff))),
        (
            Ask::Job(NOT_SUM, 4, 2),
            Told::Job(Err((Stage::Admission, Refused(8, 2)))),
        ),
        (
            Ask::Job(SHEET_7, 6, 2),
            Told::Job(Err((Stage::Admission, Refused(9, 4)))),
        ),
        (Ask::Run(EIGHT, 2), Told::Ran(Err(Refused(24, 3)))),
        (
            Ask::Job(SHEET_7, 7, 2),
            Told::Job(Err((Stage::Running, Refused(24, 4)))),
        ),
        (Ask::Run(ONE, 0), Told::Ran(Ok(0))),
        (Ask::Read(0), Told::Read(Ok(0))),
        (Ask::Read(31), Told::Read(Ok(0x0123_4567_89ab_cdef))),
    ],
};

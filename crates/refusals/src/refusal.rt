//! The causes of refusal.

/// Why a call is refused. A case holds its place where that varies.
#[derive(Clone, Copy, PartialEq, Eq, Debug)]
pub enum Refusal {
    // For the input.
    /// The exponent is outside 1 to 2^63 - 1.
    Exponent,
    /// No such method, no such width, or an exponent above the method's limit.
    Method,
    /// Over 128 steps.
    TooLong,
    /// The sheet's length (line 0), or the newline of a line.
    SheetLine(u64),
    /// A malformed field, on this line.
    Field(u64),
    /// The step number on this line is not the line's own.
    StepNumber(u64),
    /// This step cites a value that is not earlier, or cites in the wrong order.
    Citation(u64),
    /// The value of this step is not the sum of the two that it cites.
    NotSum(u64),
    /// The value of this step does not exceed the one before it, or exceeds the exponent.
    NotRising(u64),
    /// The last value, after so many steps, is not the exponent.
    NotReached(u64),
    /// A value that is not native to the kind.
    NotNative,
    /// A modulus outside its kind's bounds.
    BadModulus,
    /// There is no cell of this number.
    NoSuchCell(u64),
    /// The caller's table has too few places; so many are wanted.
    TableShort(u64),
    // For the state.
    /// This cell is empty.
    CellEmpty(u64),
    /// The allowance is 0.
    AllowanceSpent,
    /// The plan needs so many cells, and the unit has fewer.
    NeedAbove(u64),
    /// The plan has so many steps, and the allowance is less.
    AllowanceBelow(u64),
}

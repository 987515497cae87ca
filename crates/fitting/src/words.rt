//! Refusals in words.
ghost use Rattle.std.specs.Prelude.{◌≡◌, ◌<◌, length};
ghost use Rattle.fitting.specs.Words.{words};

use refusals::Refusal;

/// What is refused, in words; the place is the refusal's own.
pub fn describe(refusal: Refusal) -> &'static str
    ensures said { 0 < length result.now }
    ensures told { result.now ≡ words refusal }
{
    match refusal {
        Refusal::Exponent => "the exponent is outside 1 to 2^63 - 1",
        Refusal::Method => "no such method or width, or an exponent above the method's limit",
        Refusal::TooLong => "the sheet has over 128 steps",
        Refusal::SheetLine(_) =>
            "the sheet's length is no number of whole lines, or this line has no newline at its end",
        Refusal::Field(_) => "a field of this line is malformed",
        Refusal::StepNumber(_) => "the step number of this line is not the line's own",
        Refusal::Citation(_) =>
            "this step cites a value that is not earlier, or cites in the wrong order",
        Refusal::NotSum(_) => "the value of this step is not the sum of the two that it cites",
        Refusal::NotRising(_) =>
            "the value of this step does not exceed the one before it, or exceeds the exponent",
        Refusal::NotReached(_) => "the last value, after so many steps, is not the exponent",
        Refusal::NotNative => "the base is not native to the kind",
        Refusal::BadModulus => "the modulus is outside its kind's bounds",
        Refusal::NoSuchCell(_) => "there is no cell of this number",
        Refusal::TableShort(_) => "a table is too short, and so many places are wanted",
        Refusal::CellEmpty(_) => "this cell is empty",
        Refusal::AllowanceSpent => "the allowance is 0",
        Refusal::NeedAbove(_) => "the trimmed plan needs so many cells, and the card has fewer",
        Refusal::AllowanceBelow(_) =>
            "the trimmed plan has so many steps, and the allowance is less",
    }
}

//! The number and the place of a refusal.
ghost use Rattle.std.specs.Prelude.{◌≡◌};
ghost use Rattle.refusals.specs.Codes.{code};

use crate::refusal::Refusal;

impl Refusal {
    /// The refusal's number.
    pub fn number(self) -> u8
        ensures { result ≡ (code self).number }
    {
        match self {
            Refusal::Exponent => 1,
            Refusal::Method => 2,
            Refusal::TooLong => 3,
            Refusal::SheetLine(_) => 4,
            Refusal::Field(_) => 5,
            Refusal::StepNumber(_) => 6,
            Refusal::Citation(_) => 7,
            Refusal::NotSum(_) => 8,
            Refusal::NotRising(_) => 9,
            Refusal::NotReached(_) => 10,
            Refusal::NotNative => 11,
            Refusal::BadModulus => 12,
            Refusal::NoSuchCell(_) => 13,
            Refusal::TableShort(_) => 14,
            Refusal::CellEmpty(_) => 21,
            Refusal::AllowanceSpent => 22,
            Refusal::NeedAbove(_) => 23,
            Refusal::AllowanceBelow(_) => 24,
        }
    }

    /// The refusal's place.
    pub fn place(self) -> u64
        ensures { result ≡ (code self).place }
    {
        match self {
            Refusal::TooLong => 129,
            Refusal::Exponent
            | Refusal::Method
            | Refusal::NotNative
            | Refusal::BadModulus
            | Refusal::AllowanceSpent => 0,
            Refusal::SheetLine(place)
            | Refusal::Field(place)
            | Refusal::StepNumber(place)
            | Refusal::Citation(place)
            | Refusal::NotSum(place)
            | Refusal::NotRising(place)
            | Refusal::NotReached(place)
            | Refusal::NoSuchCell(place)
            | Refusal::TableShort(place)
            | Refusal::CellEmpty(place)
            | Refusal::NeedAbove(place)
            | Refusal::AllowanceBelow(place) => place,
        }
    }

    /// The refusal's number and its place, which tell it from every other refusal.
    pub fn number_and_place(self) -> (u8, u64)
        ensures number { result.0 ≡ (code self).number }
        ensures place { result.1 ≡ (code self).place }
        ensures apart { (e f : Refusal) → code e ≡ code f → e ≡ f }
    {
        (self.number(), self.place())
    }
}

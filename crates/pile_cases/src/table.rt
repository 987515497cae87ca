//! The calls that every pile gets.
use plain_numbers::known::{ONE, SEVEN, TWENTY_THREE};
use plain_numbers::{KnownPlan, Rule};

/// A value of a call.
#[derive(Clone, Copy)]
pub(crate) enum Sample {
    One,
    Three,
    /// The largest value of the kind.
    Largest,
    /// The least number that is no value of the kind.
    Foreign,
}

impl Sample {
    /// The number of the value, for a kind.
    pub(crate) fn of(self, rule: Rule) -> u64 {
        match self {
            Sample::One => 1,
            Sample::Three => 3,
            Sample::Largest => rule.limit().saturating_sub(1),
            Sample::Foreign => rule.limit(),
        }
    }
}

/// A call.
#[derive(Clone, Copy)]
pub(crate) enum Call {
    Load(u8, Sample),
    Read(u8),
    Multiply(u8, u8, u8),
    Run(KnownPlan, Sample),
}

/// The calls, good and bad.
pub(crate) const CALLS: [Call; 37] = [
    Call::Read(0),
    Call::Run(TWENTY_THREE, Sample::Three),
    Call::Read(255),
    Call::Load(0, Sample::Three),
    Call::Read(0),
    Call::Load(32, Sample::Three),
    Call::Load(254, Sample::Largest),
    Call::Load(255, Sample::Foreign),
    Call::Load(1, Sample::Foreign),
    Call::Multiply(1, 0, 0),
    Call::Multiply(1, 1, 2),
    Call::Multiply(3, 2, 4),
    Call::Multiply(40, 41, 42),
    Call::Multiply(0, 41, 42),
    Call::Multiply(0, 5, 42),
    Call::Multiply(255, 255, 255),
    Call::Run(TWENTY_THREE, Sample::Foreign),
    Call::Run(SEVEN, Sample::Three),
    Call::Run(ONE, Sample::Foreign),
    Call::Run(ONE, Sample::Largest),
    Call::Multiply(2, 1, 0),
    Call::Multiply(2, 2, 2),
    Call::Load(9, Sample::Largest),
    Call::Read(9),
    Call::Load(6, Sample::One),
    Call::Read(6),
    Call::Multiply(9, 9, 6),
    Call::Run(TWENTY_THREE, Sample::Three),
    Call::Multiply(31, 0, 0),
    Call::Multiply(28, 0, 1),
    Call::Read(31),
    Call::Run(TWENTY_THREE, Sample::Largest),
    Call::Multiply(6, 6, 6),
    Call::Run(TWENTY_THREE, Sample::One),
    Call::Run(SEVEN, Sample::One),
    Call::Multiply(0, 0, 0),
    Call::Read(2),
];

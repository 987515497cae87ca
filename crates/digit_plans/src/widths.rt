//! The widths of a digit.
ghost use Rattle.std.specs.Prelude.{◌≡◌, ◌^◌, ◌≤◌};

use refusals::Refusal;

/// The most bits of a digit.
pub const MOST_WIDTH: u32 = 5;

// How many bits a digit has, from 1 to 5.
#[derive(Clone, Copy)]
pub(crate) struct Width {
    pub(crate) bits: u32,
    ghost low: { 1 ≤ bits },
    ghost high: { bits ≤ 5 },
}

impl TryFrom<u32> for Width {
    ghost use Rattle.std.specs.Prelude.{◌≡◌, false, MatchResult};
    ghost use Rattle.refusals.specs.declared.refusal.Refusal.TheVariants.{Method};
    ghost use Rattle.digit_plans.specs.Digits.{is_width};

    type Error = Refusal;

    ghost try_from_gives = { λ bits r. MatchResult r (λ width. width.bits ≡ bits) (λ e. (e ≡ Method) × (is_width bits ≡ false)) };

    fn try_from(bits: u32) -> Result<Width, Refusal> {
        if !(1..=MOST_WIDTH).contains(&bits) {
            return Err(Refusal::Method);
        }
        Ok(Width { bits })
    }
}

impl Width {
    // How many digits of this width there are.
    pub(crate) fn digit_count(self) -> u64
        ensures is { result ≡ 2 ^ self.bits }
        ensures low { 2 ≤ result }
        ensures high { result ≤ 32 }
    {
        1 << self.bits
    }
}

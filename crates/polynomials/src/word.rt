//! The value of a register.
ghost use Rattle.std.specs.Prelude.{◌≡◌};

/// A polynomial with coefficients modulo 2: bit i is the coefficient of t^i.
#[derive(Clone, Copy, PartialEq, Eq, Debug)]
pub struct Word {
    pub bits: u64,
}

impl From<u64> for Word {
    ghost from_gives = { λ bits word. word ≡ record { bits = bits } };

    fn from(bits: u64) -> Word {
        Word { bits }
    }
}

impl From<Word> for u64 {
    ghost from_gives = { λ word bits. bits ≡ word.bits };

    fn from(word: Word) -> u64 {
        word.bits
    }
}

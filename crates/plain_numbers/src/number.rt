//! A value of any kind as a number.
ghost use Rattle.std.specs.Prelude.{◌≡◌, ℕ, ◌%◌, ◌^◌};
ghost use Rattle.std.proofs.Common.{rules};

use kinds::Count;
use polynomials::Word;

/// A value of any kind as a number: values of one number are the same.
pub trait Number: Copy + Into<u64> {
    ghost value: { Self → ℕ };

    ghost bound: { ℕ };

    /// The value of a number; the numbers from the bound on start again at 0.
    fn of(number: u64) -> Self
        ensures { value result ≡ number % bound };

    /// The number of a value.
    fn number(self) -> u64
        ensures { result ≡ value self }
    {
        self.into()
    }

    ghost becomes: { (v : Self) (n : ℕ) → Self.Into.converts v n → n ≡ value v };

    ghost apart: { (a b : Self) → value a ≡ value b → a ≡ b };
}

impl Number for Count {
    ghost value = { λ c. c.value };

    ghost bound = { 2 ^ 64 };

    ghost becomes = { Prim.search rules };

    ghost apart = { Prim.search rules };

    fn of(number: u64) -> Count {
        Count::from(number)
    }
}

impl Number for u32 {
    ghost value = { λ n. n };

    ghost bound = { 2 ^ 32 };

    ghost becomes = { Prim.search rules };

    ghost apart = { Prim.search rules };

    fn of(number: u64) -> u32 {
        (number & 0xffff_ffff) as u32
    }
}

impl Number for Word {
    ghost value = { λ w. w.bits };

    ghost bound = { 2 ^ 64 };

    ghost becomes = { Prim.search rules };

    ghost apart = { Prim.search rules };

    fn of(number: u64) -> Word {
        Word::from(number)
    }
}

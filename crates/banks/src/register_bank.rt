//! A bank of register polynomials.
ghost use Rattle.std.specs.Prelude.{◌≡◌};
ghost use Rattle.banks.specs.Banks.{bank, fresh};

use crate::bank::Bank;
use polynomials::Register;

/// A bank of register polynomials.
pub type RegisterBank = Bank<Register>;

impl Bank<Register> {
    /// An empty bank of polynomials of this modulus, with this allowance.
    pub fn new(rule: Register, allowance: u64) -> Self
        ensures empty { bank result.places result.left ≡ fresh allowance }
        ensures rule { result.rule ≡ rule }
    {
        Bank::of(rule, allowance)
    }
}

//! A bank of residues.
ghost use Rattle.std.specs.Prelude.{◌≡◌};
ghost use Rattle.banks.specs.Banks.{bank, fresh};

use crate::bank::Bank;
use kinds::Residues;

/// A bank of residues.
pub type ResiduesBank = Bank<Residues>;

impl Bank<Residues> {
    /// An empty bank of residues of this modulus, with this allowance.
    pub fn new(rule: Residues, allowance: u64) -> Self
        ensures empty { bank result.places result.left ≡ fresh allowance }
        ensures rule { result.rule ≡ rule }
    {
        Bank::of(rule, allowance)
    }
}

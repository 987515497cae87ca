//! A bank of counts.
ghost use Rattle.std.specs.Prelude.{◌≡◌};
ghost use Rattle.banks.specs.Banks.{bank, fresh};

use crate::bank::Bank;
use kinds::Counts;

/// A bank of counts.
pub type CountsBank = Bank<Counts>;

impl Bank<Counts> {
    /// An empty bank of counts, with this allowance.
    pub fn new(allowance: u64) -> Self
        ensures empty { bank result.places result.left ≡ fresh allowance }
    {
        Bank::of(Counts, allowance)
    }
}

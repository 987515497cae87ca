//! Residues: whole numbers that are multiplied modulo a fixed one.
ghost use Rattle.std.specs.Prelude.{◌≡◌, ◌*◌, ◌%◌, ◌^◌, ◌<◌, ◌≤◌};
ghost use Rattle.refusals.specs.Faults.{answer};
ghost use Rattle.std.specs.Result.{result_map_both};
ghost use Rattle.kinds.specs.Residues.{modulus_fault, residues};
ghost use Rattle.std.proofs.Common.{arith, mod-lt};
ghost use Rattle.std.proofs.lemmas.Bool.{lt-ltb};
ghost use Rattle.kinds.specs.Remainders.{residue_assoc};

use crate::kind::Kind;
use refusals::Refusal;

/// The kind of residues of a modulus p, whose values are 0 to p - 1.
#[derive(Clone, Copy)]
pub struct Residues {
    modulus: u32,
    ghost least: { 2 ≤ modulus },
    ghost most: { modulus < 2 ^ 32 },
}

const SMALLEST_MODULUS: u32 = 2;

impl Residues {
    /// The kind of residues of this modulus, unless it is refused as out of bounds.
    pub fn new(modulus: u64) -> Result<Residues, Refusal>
        ensures answer { result_map_both (λ k. k.modulus) (λ e. e) result ≡ answer (modulus_fault modulus) modulus }
    {
        match u32::try_from(modulus) {
            Ok(modulus) if modulus >= SMALLEST_MODULUS => Ok(Residues { modulus }),
            _ => Err(Refusal::BadModulus),
        }
    }

    /// The modulus.
    pub fn modulus(&self) -> u64
        ensures value { result ≡ self.now.modulus }
        ensures least { 2 ≤ result }
        ensures most { result < 2 ^ 32 }
    {
        u64::from(self.modulus)
    }
}

impl Kind for Residues {
    type Value = u32;

    ghost kind = { λ k. residues k.modulus };

    ghost closed = { λ k a b native-a native-b. lt-ltb (a * b % k.modulus) k.modulus (mod-lt (a * b) (omega (arith, k.least))) };

    ghost assoc = { λ k a b c native-a native-b native-c. residue_assoc k.modulus a b c };

    fn is_native(&self, v: u32) -> bool {
        v < self.modulus
    }

    fn product(&self, a: u32, b: u32) -> Option<u32> {
        if self.is_native(a) && self.is_native(b) {
            let product = u64::from(a) * u64::from(b) % self.modulus();
            Some(product as u32)
        } else {
            None
        }
    }
}

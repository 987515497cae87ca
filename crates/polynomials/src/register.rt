//! The kind of register polynomials.
ghost use Rattle.std.specs.Prelude.{◌≡◌, ℕ, ◌+◌, ◌^◌, ◌<◌, ◌≤◌};
ghost use Rattle.std.proofs.Common.{ap, arith};
ghost use Rattle.std.specs.Result.{result_map_both};
ghost use Rattle.refusals.specs.Faults.{answer};
ghost use Rattle.bits.specs.Bits.{top, Highest};
ghost use Rattle.polynomial_ring.specs.Polynomials.{rem, product, Reduced};
ghost use Rattle.polynomial_ring.specs.Laws.{Multiplies, Reduces};
ghost use Rattle.polynomials.specs.Tables.{Folds};
ghost use Rattle.polynomials.specs.Polynomials.{modulus_fault, polynomials};
ghost use Rattle.std.proofs.lemmas.Bool.{lt-ltb};
ghost use Rattle.polynomial_ring.proofs.Remainders.{product_native, product_assoc};
ghost use Rattle.polynomials.specs.declared.word.Word.{Word};

use crate::modulus::Modulus;
use crate::products::times;
use crate::word::Word;
use kinds::Kind;
use refusals::Refusal;

/// The kind of polynomials below the degree of a modulus f, whose product is reduced modulo f.
/// It holds the modulus with its degree, and the table that products are reduced by.
#[derive(Clone, Copy)]
pub struct Register {
    modulus: Modulus,
    rows: [[u64; 16]; 16],
    ghost folds: { Folds modulus.value rows },
}

impl Register {
    /// The kind of this modulus, unless it is refused as out of bounds.
    pub fn new(modulus: u64) -> Result<Register, Refusal>
        ensures answer { result_map_both (λ k. k.modulus.value) (λ e. e) result ≡ answer (modulus_fault modulus) modulus }
        ensures highest { Highest }
        ensures multiplies { Multiplies }
        ensures reduces { Reduces }
    {
        let modulus = Modulus::new(modulus)?;
        Ok(Register {
            modulus,
            rows: modulus.fold_rows(),
        })
    }

    /// The modulus.
    pub fn modulus(&self) -> u64
        ensures value { result ≡ self.now.modulus.value }
        ensures least { 2 ≤ result }
    {
        self.modulus.value
    }

    // The remainder of p.
    fn remainder(&self, p: u128) -> u64
        requires { p < 2 ^ (64 + top self.now.modulus.value) }
        ensures { result ≡ rem self.now.modulus.value p }
    {
        let mut high = (p >> self.modulus.degree) as u64;
        let mut r = (p & u128::from(self.modulus.limit() - 1)) as u64;
        for row in &self.rows {
            r ^= row[(high % 16) as usize];
            high /= 16;
        }
        r
    }

    // The product of two values below the degree.
    fn reduced_product(&self, a: u64, b: u64) -> u64
        requires { (Reduced self.now.modulus.value a) × (Reduced self.now.modulus.value b) }
        ensures { result ≡ product self.now.modulus.value a b }
    {
        self.remainder(times(a, b))
    }
}

impl Kind for Register {
    type Value = Word;

    ghost kind = { λ k. polynomials k.modulus.value };

    ghost closed = { λ k a b native-a native-b.
        let f = k.modulus.value in
        lt-ltb (product f a.bits b.bits) (2 ^ top f) (product_native f (omega (arith, k.modulus.least)) a.bits b.bits) };

    ghost assoc = { λ k a b c native-a native-b native-c.
        let word : ℕ → Word = λ x. record { bits = x } in
        ap word (product_assoc k.modulus.value (omega (arith, k.modulus.least)) a.bits b.bits c.bits) };

    fn is_native(&self, v: Word) -> bool {
        v.bits < self.modulus.limit()
    }

    fn product(&self, a: Word, b: Word) -> Option<Word> {
        if self.is_native(a) && self.is_native(b) {
            Some(Word {
                bits: self.reduced_product(a.bits, b.bits),
            })
        } else {
            None
        }
    }
}

//! A modulus, and what is worked out from it once: the remainders of the four-bit parts that stand above its degree.
ghost use Rattle.std.specs.Prelude.{◌≡◌, ℕ, ◌*◌, ◌^◌, ◌<◌, ◌≤◌, slice_index};
ghost use Rattle.std.specs.Result.{result_map_both};
ghost use Rattle.refusals.specs.Faults.{answer};
ghost use Rattle.bits.specs.Bits.{top};
ghost use Rattle.polynomial_ring.specs.Polynomials.{times, rem, reduce, Reduced};
ghost use Rattle.polynomials.specs.Tables.{Folds};
ghost use Rattle.polynomials.specs.Polynomials.{modulus_fault};

use crate::rows::row;
use refusals::Refusal;

/// A modulus of at least 2, with its degree, the place of its highest one bit.
#[derive(Clone, Copy)]
pub(crate) struct Modulus {
    pub(crate) value: u64,
    pub(crate) degree: u32,
    ghost least: { 2 ≤ value },
    ghost high: { degree ≡ top value },
    ghost narrow: { degree < 64 },
}

const SMALLEST_MODULUS: u64 = 2;

impl Modulus {
    /// This modulus, unless it is refused as out of bounds.
    pub(crate) fn new(value: u64) -> Result<Modulus, Refusal>
        ensures { result_map_both (λ m. m.value) (λ e. e) result ≡ answer (modulus_fault value) value }
    {
        if value < SMALLEST_MODULUS {
            return Err(Refusal::BadModulus);
        }
        Ok(Modulus {
            value,
            degree: value.ilog2(),
        })
    }

    /// The highest bit of the modulus. The values below it are those below the degree.
    pub(crate) fn limit(&self) -> u64
        ensures { result ≡ 2 ^ top self.now.value }
    {
        1 << self.degree
    }

    // t times x, reduced.
    fn shifted(&self, x: u64) -> u64
        requires { Reduced self.now.value x }
        ensures { result ≡ reduce (top self.now.value) self.now.value (x * 2) }
    {
        let y = x * 2;
        if y < self.limit() { y } else { y ^ self.value }
    }

    // The remainders of 0 to 15 times `unit`.
    fn fold_row(&self, unit: u64) -> [u64; 16]
        requires { Reduced self.now.value unit }
        ensures { (h : ℕ) → h < 16 → slice_index result h ≡ rem self.now.value (times unit h) }
    {
        row(
            0,
            unit,
            |x|
                requires { Reduced self.now.value x }
            { self.shifted(x) },
        )
    }

    /// The table that products are reduced by.
    pub(crate) fn fold_rows(&self) -> [[u64; 16]; 16]
        ensures { Folds self.now.value result }
    {
        let mut rows = [[0u64; 16]; 16];
        let mut unit = self.limit() ^ self.value;
        for row in &mut rows {
            *row = self.fold_row(unit);
            unit = self.shifted(row[8]);
        }
        rows
    }
}

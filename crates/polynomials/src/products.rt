//! The product of two polynomials, before it is reduced: four bits of one factor at a time.
ghost use Rattle.std.specs.Prelude.{◌≡◌, ℕ, ◌^◌, ◌<◌, slice_index};
ghost use Rattle.polynomial_ring.specs.Polynomials.{times};

use crate::rows::row;

// The products of a and 0 to 15.
fn multiples(a: u64) -> [u128; 16]
    requires { a < 2 ^ 63 }
    ensures { (m : ℕ) → m < 16 → slice_index result m ≡ times a m }
{
    row(0, u128::from(a), |x| x << 1)
}

// The product of a and b, as polynomials.
pub(crate) fn times(a: u64, b: u64) -> u128
    requires { a < 2 ^ 63 }
    ensures { result ≡ times a b }
{
    let row = multiples(a);
    let mut product = 0u128;
    for i in (0..16u32).rev() {
        product = product * 16 ^ row[((b >> (4 * i)) % 16) as usize];
    }
    product
}

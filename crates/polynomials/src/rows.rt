//! Rows of multiples: 0 to 15 times a polynomial.
ghost use Rattle.std.specs.Prelude.{◌≡◌, ◌<◌};
ghost use Rattle.polynomials.specs.Tables.{IsRow};

use std::ops::BitXor;

/// The multiples of `unit` by 0 to 15, where `none` is 0 times it, and `twice` doubles a multiple.
pub(crate) fn row<T: Copy + BitXor<T, Output = T>, F: Fn(T) -> T>(
    none: T,
    unit: T,
    twice: F,
) -> [T; 16]
    requires sums { (x y : T) → T.can_bitxor x y }
    requires first { F.pre twice unit }
    requires further { (x y z : T) → F.pre twice x → F.post twice x y → T.bitxor_gives y unit z → (F.pre twice y) × (F.pre twice z) }
    ensures { IsRow none unit (F.post twice) T.bitxor_gives result }
{
    let mut row = [none; 16];
    row[1] = unit;
    for h in 1..8usize {
        let even = twice(row[h]);
        row[2 * h] = even;
        row[2 * h + 1] = even ^ unit;
    }
    row
}

//! Counts: whole numbers that are added, and never pass their cap.
ghost use Rattle.std.specs.Prelude.{◌≡◌};
ghost use Rattle.kinds.specs.Counting.{counting};
ghost use Rattle.std.proofs.Common.{rules};

use crate::kind::Kind;

/// A count; those up to 2^63 - 1 are native.
#[derive(Clone, Copy, PartialEq, Eq, Debug)]
pub struct Count {
    pub value: u64,
}

impl From<u64> for Count {
    ghost from_gives = { λ value count. count ≡ record { value = value } };

    fn from(value: u64) -> Count {
        Count { value }
    }
}

impl From<Count> for u64 {
    ghost from_gives = { λ count value. value ≡ count.value };

    fn from(count: Count) -> u64 {
        count.value
    }
}

/// The kind of counts, whose product is the sum, capped at 2^63 - 1.
#[derive(Clone, Copy)]
pub struct Counts;

const LARGEST: u64 = (1 << 63) - 1;

impl Kind for Counts {
    type Value = Count;

    ghost kind = { λ _. counting };

    ghost closed = { Prim.search rules };

    ghost assoc = { Prim.search rules };

    fn is_native(&self, v: Count) -> bool {
        v.value <= LARGEST
    }

    fn product(&self, a: Count, b: Count) -> Option<Count> {
        if self.is_native(a) && self.is_native(b) {
            Some(Count::from((a.value + b.value).min(LARGEST)))
        } else {
            None
        }
    }
}

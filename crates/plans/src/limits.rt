//! The bounds of a plan.

/// The largest exponent, 2^63 - 1.
pub const TOP_EXPONENT: u64 = 0x7fff_ffff_ffff_ffff;

/// The most steps that a plan has.
pub const MOST_STEPS: usize = 128;

/// The most values that a plan has, a_0 to a_128.
pub const MOST_VALUES: usize = 129;

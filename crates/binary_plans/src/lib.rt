//! Binary plans: the steps that follow the binary digits of the exponent.
//! `left` has the plan from the highest bit down, `right` the one from bit 0 up.
#![tactic(auto)]

pub mod left;
pub mod right;

pub use left::left_to_right;
pub use right::right_to_left;

//! Digit plans: the steps that follow the digits of the exponent, so many bits to a digit.
//! `widths` has the widths of a digit, `parts` the parts that a plan is written from (the list, the doublings, the steps for a digit), and `method` the whole plan.
#![tactic(auto)]

pub mod method;
mod parts;
pub mod widths;

pub use method::digits;
pub use widths::MOST_WIDTH;

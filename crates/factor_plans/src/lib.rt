//! The factor method: plans from the smallest divisor of an exponent.
//! `divisor` has the smallest divisor above 1, `factoring` the method.
#![tactic(auto)]

pub mod divisor;
pub mod factoring;

pub use divisor::least_divisor;
pub use factoring::{TOP_FACTORED, factor};

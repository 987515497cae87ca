//! The tree method: plans of exponents up to 1,024 by the power tree.
//! `growing` grows the tree over the caller's table of parents; `writing` writes the steps of a path; `method` has the call.
#![tactic(auto)]

mod growing;
pub mod method;
mod writing;

pub use method::tree;

//! Trimming: a plan without the steps that it does not need.
//! `marking` finds the needed values and their new numbers, `trimmer` writes the needed steps.
#![tactic(auto)]

mod marking;
pub mod trimmer;

pub use trimmer::trim;

//! Functions on plain numbers over the proved crates, for a program in another language to link.
//! `chains` multiplies over and over, `powers` raises to an exponent by a plan, `sums` has the checksum of a plan's steps, `longest` places plans of 128 steps,
//! `exports` has what is linked.
#![tactic(auto)]

mod chains;
pub mod exports;
mod longest;
mod powers;
mod sums;

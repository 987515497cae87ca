//! Kinds of value: what can be multiplied, under which product.
//! `kind` has the interface and its two laws, `counts` the capped counts, `residues` the residues of a modulus.
#![tactic(auto)]

pub mod counts;
pub mod kind;
pub mod residues;

pub use counts::{Count, Counts};
pub use kind::Kind;
pub use residues::Residues;

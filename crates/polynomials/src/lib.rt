//! Register polynomials: polynomials with coefficients modulo 2, multiplied modulo a fixed one.
//! `word` has a value, `products` the product of two polynomials, `modulus` a modulus and what is worked out from it once,
//! `register` the kind. The definitions and their laws are in the crate `polynomial_ring`.
#![tactic(auto)]

mod modulus;
mod products;
pub mod register;
mod rows;
pub mod word;

pub use register::Register;
pub use word::Word;

//! Refusals: every way in which a call is refused, with its number and place.
//! `refusal` has the causes, `codes` their numbers and places.
#![tactic(auto)]

pub mod codes;
pub mod refusal;

pub use refusal::Refusal;

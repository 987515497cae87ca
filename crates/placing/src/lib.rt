//! Placing: which cell holds each value of a plan, and how many cells a plan needs.
//! `place` has the two public calls, `cells` puts the values into cells, `citations` says how long a value is held, `limits` has the bound.
#![tactic(auto)]

mod cells;
mod citations;
pub mod limits;
pub mod place;

pub use limits::MOST_VALUES;

//! Straight runs: the powers of a base by a plan, for every kind of value and without a unit.
//! `run` has the one function.
#![tactic(auto)]

mod run;

pub use run::straight_run;

//! A run: a base raised to a plan's exponent on a unit.
//! `raised` has what an accepted run answers, `running` the run.
#![tactic(auto)]

pub mod raised;
pub mod running;

pub use raised::Raised;
pub use running::run;

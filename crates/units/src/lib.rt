//! Units: cells that hold the values of a kind, and multiply them under an allowance.
//! `unit` has the interface with its checks, `record` what a unit that keeps records adds for a multiplication.
#![tactic(auto)]

pub mod record;
pub mod unit;

pub use record::Record;
pub use unit::{Unit, check_cell};

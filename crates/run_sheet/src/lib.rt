//! A run sheet: a layer on a unit of any make that records each multiplication which reaches it.
//! `run_sheet` has the layer, which is itself a unit of the same kind.
#![tactic(auto)]

pub mod run_sheet;

pub use run_sheet::RunSheet;

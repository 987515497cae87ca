//! Banks: a unit of 32 cells for any kind of value, with no records.
//! `bank` has the bank; `counts_bank`, `residues_bank` and `register_bank` make one of each kind, and name it.
#![tactic(auto)]

pub mod bank;
pub mod counts_bank;
pub mod register_bank;
pub mod residues_bank;

pub use bank::Bank;
pub use counts_bank::CountsBank;
pub use register_bank::RegisterBank;
pub use residues_bank::ResiduesBank;

//! What the programs share that compare the product with plain models of its rules: the values of every kind as plain numbers, the rules of each kind on them,
//! worked apart from the code of the kinds, refusals by their numbers, and plans that were worked by hand.
//! `number` has a value as a number, `rule` the kinds, `refused` a refusal by its number and its place, `known` the plans, `planned` the methods and the tables that they write into.
#![tactic(auto)]

pub mod known;
pub mod number;
pub mod planned;
pub mod refused;
pub mod rule;

pub use known::KnownPlan;
pub use number::Number;
pub use planned::{METHODS, PlanTables};
// The steps of the macro `steps!` are of this type, which it names by this crate.
pub use plans::Step;
pub use refused::Refused;
pub use rule::{LARGEST_COUNT, Rule};

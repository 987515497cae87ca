//! Lists of calls on one unit, and the law that holds of them.
//! `act` has what a call does and what it answers, `call` the call with its constructors, `performing` a list of calls.
#![tactic(auto)]

pub mod act;
pub mod call;
pub mod performing;

pub use act::{Act, Answer};
pub use call::Call;
pub use performing::{perform, perform_call};

//! The planning methods by their numbers, and the plan program's answer to a line.
//! `method` has the choice of a method and its plan, `request` reads a line, `response` answers it in bytes.
#![tactic(auto)]

pub mod method;
pub mod request;
pub mod response;

pub use method::Method;
pub use request::{PlanRequest, parse_request};
pub use response::{MOST_BYTES, respond};

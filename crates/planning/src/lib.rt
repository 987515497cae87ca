//! What the planning methods share: the request that each checks first, and the steps that each writes.
//! `requests` has the request and its parts, `steps` the writing of steps.
//! The definitions of answers and tables are in specs/Planning, what the writer of steps answers and leaves in specs/Steps.
#![tactic(auto)]

pub mod requests;
pub mod steps;

pub use requests::{check_exponent, check_request};
pub use steps::{Reached, StepWriter};

//! Plans: ascending addition chains, admitted once and then held by their type.
//! `step` has a step, `limits` the bounds, `admit` the rules in their order, `plan` the admitted plan.
#![tactic(auto)]

mod admit;
pub mod limits;
pub mod plan;
pub mod step;

pub use limits::{MOST_STEPS, MOST_VALUES, TOP_EXPONENT};
pub use plan::Plan;
pub use step::{NO_STEP, Step};

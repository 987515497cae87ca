//! A job: one sheet carried through reading, admission and running.
//! `stage` has the stages, `job_refusal` why a job is refused and how a stage's refusal becomes its own, `carrying` the job.
#![tactic(auto)]

pub mod carrying;
pub mod job_refusal;
pub mod stage;

pub use carrying::job;
pub use job_refusal::{JobRefusal, at_stage};
pub use stage::Stage;

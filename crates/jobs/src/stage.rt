//! The stages of a job.
ghost use Rattle.std.specs.Prelude.{Some};
ghost use Rattle.jobs.specs.Jobs.{stage_name};

use std::fmt;

/// A stage that a job goes through.
#[derive(Clone, Copy, PartialEq, Eq, Debug)]
pub enum Stage {
    /// The sheet is read.
    Reading,
    /// The steps are admitted as a plan.
    Admission,
    /// The plan is run.
    Running,
}

impl fmt::Display for Stage {
    ghost output = { λ stage. Some (stage_name stage) };

    fn fmt<W: fmt::Write>(&self, f: &mut fmt::Formatter<W>) -> fmt::Result {
        f.write_str(match self {
            Stage::Reading => "reading",
            Stage::Admission => "admission",
            Stage::Running => "running",
        })
    }
}

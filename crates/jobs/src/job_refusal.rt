//! Why a job is refused.
ghost use Rattle.std.specs.Prelude.{◌≡◌};
ghost use Rattle.jobs.specs.Jobs.{arrived, staged};

use crate::stage::Stage;
use refusals::Refusal;

/// A stage's refusal, whole as it arrives from there, and the stage.
#[derive(Clone, Copy)]
pub struct JobRefusal {
    pub stage: Stage,
    pub refusal: Refusal,
}

impl JobRefusal {
    /// The refusal's number.
    pub fn number(self) -> u8
        ensures value { result ≡ (arrived self).number }
    {
        self.refusal.number()
    }

    /// The refusal's place.
    pub fn place(self) -> u64
        ensures value { result ≡ (arrived self).place }
    {
        self.refusal.place()
    }

    /// The stage that refused.
    pub fn stage(self) -> Stage
        ensures value { result ≡ (arrived self).stage }
    {
        self.stage
    }
}

/// What a stage answers, its refusal with the stage.
pub fn at_stage<T>(stage: Stage, answer: Result<T, Refusal>) -> Result<T, JobRefusal>
    ensures value { result ≡ staged stage answer }
{
    answer.map_err(|refusal| JobRefusal { stage, refusal })
}

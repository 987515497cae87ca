//! Plans that were worked by hand.
ghost use Rattle.std.specs.Prelude.{◌≡◌, Err, MatchResult};
ghost use Rattle.plans.specs.Admission.{admission};

use plans::{Plan, Step};
use refusals::Refusal;

/// Steps, each by the two values that it cites and its own.
#[macro_export]
macro_rules! steps {
    ($(($j:expr, $k:expr, $value:expr)),* $(,)?) => {
        [$($crate::Step { j: $j, k: $k, value: $value }),*]
    };
}

/// A plan that was worked by hand: its exponent, its steps, and the cells that it needs.
#[derive(Clone, Copy)]
pub struct KnownPlan {
    pub exponent: u64,
    pub steps: &'static [Step],
    pub need: usize,
}

/// 1: no step, and the base stands in the one cell.
pub const ONE: KnownPlan = KnownPlan {
    exponent: 1,
    steps: &[],
    need: 1,
};

/// 1 2 4 8: each value goes into the cell of the one before it.
pub const EIGHT: KnownPlan = KnownPlan {
    exponent: 8,
    steps: &steps![(0, 0, 2), (1, 1, 4), (2, 2, 8)],
    need: 1,
};

/// 1 2 4 6 7: 1, 2 and 4 stand in cells together.
pub const SEVEN: KnownPlan = KnownPlan {
    exponent: 7,
    steps: &steps![(0, 0, 2), (1, 1, 4), (2, 1, 6), (3, 0, 7)],
    need: 3,
};

/// 1 2 3 5 10 13 23: never more than two values stand in cells together.
pub const TWENTY_THREE: KnownPlan = KnownPlan {
    exponent: 23,
    steps: &steps![
        (0, 0, 2),
        (1, 0, 3),
        (2, 1, 5),
        (3, 3, 10),
        (4, 2, 13),
        (5, 4, 23),
    ],
    need: 2,
};

impl KnownPlan {
    /// The plan, admitted.
    pub fn plan(self) -> Result<Plan<'static>, Refusal>
        ensures { MatchResult result (λ p. (p.exponent ≡ self.exponent) × (p.steps.now ≡ self.steps.now)) (λ e. admission self.exponent self.steps.now ≡ Err e) }
    {
        Plan::new(self.exponent, self.steps)
    }
}

//! What a fitting answers.
ghost use Rattle.std.specs.Prelude.{◌≡◌};
ghost use Rattle.fitting.specs.Fitting.{size_of};

use placing::place::cells_needed;
use plans::Plan;

/// How many steps a plan has, and how many cells it needs.
#[derive(Clone, Copy, PartialEq, Eq, Debug)]
pub struct Size {
    pub length: usize,
    pub need: u8,
}

/// The size of the plan and of the trimmed one, the power of the base, and the allowance that is left.
#[derive(Clone, Copy)]
pub struct Fitted<V> {
    pub plan: Size,
    pub trimmed: Size,
    pub power: V,
    pub left: u64,
}

// The size of a plan.
pub(crate) fn measure(plan: &Plan<'_>) -> Size
    ensures value { result ≡ size_of plan.now.steps.now }
{
    Size {
        length: plan.len(),
        need: cells_needed(plan),
    }
}

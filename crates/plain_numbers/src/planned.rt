//! Every method, and the tables that a plan is written into.
ghost use Rattle.std.specs.Prelude.{◌≡◌, replicate};

use methods::Method;
use plans::{MOST_STEPS, NO_STEP, Step};
use power_tree::PARENTS;

/// Every method, and every width of digits.
pub const METHODS: [Method; 9] = [
    Method::LeftToRight,
    Method::RightToLeft,
    Method::Factor,
    Method::Tree,
    Method::Digits(1),
    Method::Digits(2),
    Method::Digits(3),
    Method::Digits(4),
    Method::Digits(5),
];

/// The tables that a plan is written into: its steps, and the parents of the tree.
#[derive(Drop)]
pub struct PlanTables {
    pub steps: [Step; MOST_STEPS],
    pub parents: [u16; PARENTS],
}

impl PlanTables {
    /// The tables with nothing written.
    pub fn new() -> PlanTables
        ensures steps { result.steps ≡ replicate 128 (record { j = 0; k = 0; value = 0 }) }
        ensures parents { result.parents ≡ replicate 1025 0 }
    {
        PlanTables {
            steps: [NO_STEP; MOST_STEPS],
            parents: [0; PARENTS],
        }
    }
}

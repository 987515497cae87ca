//! How long a value is held: until the last step that cites it is over.
ghost use Rattle.std.specs.Prelude.{ℕ, ◌≤◌, length, slice_index};
ghost use Rattle.placing.specs.Last.{LastOf};

use plans::{MOST_VALUES, Plan};

/// The last step that cites each value, counted from 1, or 0 where none does.
pub(crate) fn last_citations(plan: &Plan<'_>) -> [u8; MOST_VALUES]
    ensures { (i : ℕ) → i ≤ length plan.now.steps.now → LastOf plan.now.steps.now i (slice_index result i) }
{
    let mut last = [0u8; MOST_VALUES];
    for (t, step) in plan.steps().iter().enumerate() {
        let number = (t + 1) as u8;
        last[usize::from(step.j)] = number;
        last[usize::from(step.k)] = number;
    }
    last
}

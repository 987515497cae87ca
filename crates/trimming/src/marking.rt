//! Which values of a plan are needed, and their numbers among the needed ones.
ghost use Rattle.std.specs.Prelude.{◌≡◌, ℕ, ◌+◌, ◌<◌, ◌≤◌, false, length, slice_index, slice_index_or};
ghost use Rattle.trimming.specs.Needed.{needed, needed_of};
ghost use Rattle.trimming.specs.Trim.{rank};

use arrayvec::ArrayVec;
use plans::{MOST_VALUES, Plan};

// Which of the values a_0 to a_r are needed.
fn needed_marks(plan: &Plan<'_>) -> [bool; MOST_VALUES]
    ensures marked { (m : ℕ) → m < 129 → slice_index_or result m false ≡ needed plan.now.steps.now m }
{
    let steps = plan.steps();
    let mut marks = [false; MOST_VALUES];
    marks[steps.len()] = true;
    for (i, step) in steps.iter().enumerate().rev() {
        if marks[i + 1] {
            marks[usize::from(step.j)] = true;
            marks[usize::from(step.k)] = true;
        }
    }
    marks
}

// The new numbers of the values: of each, how many of the values from a_1 up to it are needed.
pub(crate) fn new_numbers(plan: &Plan<'_>) -> ArrayVec<u16, MOST_VALUES>
    ensures long { length result.items ≡ length plan.now.steps.now + 1 }
    ensures numbered { (m : ℕ) → m ≤ length plan.now.steps.now → slice_index result.items m ≡ rank (needed_of plan.now.steps.now) m }
{
    let marks = needed_marks(plan);
    let mut count = 0;
    let mut numbers = ArrayVec::new();
    numbers.push(count);
    for mark in &marks[1..=plan.len()] {
        count += u16::from(*mark);
        numbers.push(count);
    }
    numbers
}

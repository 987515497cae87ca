//! The need of a plan, and its supplied placing.
ghost use Rattle.std.specs.Prelude.{◌≡◌, length};
ghost use Rattle.refusals.specs.Faults.{answer as answered};
ghost use Rattle.placing.specs.Placing.{need, FitsExactly, Supplied};
ghost use Rattle.placing.specs.Supply.{supplied_cells};
ghost use Rattle.placing.specs.Answer.{place_fault, Leaves, LeavesCells};

use crate::cells::arrange;
use plans::{MOST_VALUES, Plan};
use refusals::Refusal;

/// The need of a plan: the fewest cells that a placing of it takes.
pub fn cells_needed(plan: &Plan<'_>) -> u8
    ensures value { result ≡ need plan.now.steps.now }
    ensures exactly { FitsExactly plan.now.steps.now }
{
    arrange(plan).used
}

/// Places a plan within so many cells: answers its need, and writes the cells of its values into the first places of the table.
pub fn place(plan: &Plan<'_>, cells: u8, places: &mut [u8]) -> Result<u8, Refusal>
    ensures answer { result ≡ answered (place_fault plan.now.steps.now cells (length places.old)) (need plan.now.steps.now) }
    ensures after { Leaves plan.now.steps.now places.old places.new result }
    ensures cells { LeavesCells plan.now.steps.now places.old places.new result }
    ensures supplied { Supplied plan.now.steps.now (supplied_cells plan.now.steps.now) }
    ensures exactly { FitsExactly plan.now.steps.now }
{
    if places.len() < MOST_VALUES {
        return Err(Refusal::TableShort(MOST_VALUES as u64));
    }
    let arranged = arrange(plan);
    if cells < arranged.used {
        return Err(Refusal::NeedAbove(u64::from(arranged.used)));
    }
    places[..arranged.cells.len()].copy_from_slice(&arranged.cells);
    Ok(arranged.used)
}

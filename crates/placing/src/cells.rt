//! The supplied placing: each value in turn goes into the lowest cell that is free.
ghost use Rattle.std.specs.Prelude.{◌≡◌, ℕ, ◌<◌, ◌≤◌, length, slice_index};
ghost use Rattle.placing.specs.Placing.{past, need, Supplied};
ghost use Rattle.placing.specs.Supply.{supplied_cells};

use crate::citations::last_citations;
use arrayvec::ArrayVec;
use plans::{MOST_VALUES, Plan};

/// The cells of a plan's values, and how many cells they use.
#[derive(Drop)]
pub(crate) struct Arrangement {
    pub(crate) cells: ArrayVec<u8, MOST_VALUES>,
    pub(crate) used: u8,
}

// The lowest cell that is free for value s, or how many cells there are. Cell x is kept until step `until[x]` is over.
fn free_cell(until: &[u8], s: usize) -> usize
    ensures within { result ≤ length until.now }
    ensures taken { (x : ℕ) → x < result → past s < slice_index until.now x }
    ensures free { result < length until.now → slice_index until.now result ≤ past s }
{
    // When value s is put into its cell, the steps 1 to s are over.
    until
        .iter()
        .position(|end| usize::from(*end) <= s)
        .unwrap_or(until.len())
}

/// Puts the values into cells; a cell that none has used yet is taken only if those in use are all kept.
pub(crate) fn arrange(plan: &Plan<'_>) -> Arrangement
    ensures used { result.used ≡ need plan.now.steps.now }
    ensures cells { Supplied plan.now.steps.now result.cells.items }
    ensures named { result.cells.items ≡ supplied_cells plan.now.steps.now }
{
    let last = last_citations(plan);
    let mut until: ArrayVec<u8, MOST_VALUES> = ArrayVec::new();
    let mut cells: ArrayVec<u8, MOST_VALUES> = ArrayVec::new();
    for (s, end) in last[..=plan.len()].iter().enumerate() {
        let x = free_cell(&until, s);
        if x < until.len() {
            until[x] = *end;
        } else {
            until.push(*end);
        }
        cells.push(x as u8);
    }
    Arrangement {
        cells,
        used: until.len() as u8,
    }
}

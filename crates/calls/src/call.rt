//! A call, as it is put into a list.
ghost use Rattle.std.specs.Prelude.{◌≡◌};
ghost use Rattle.calls.specs.declared.act.Act.TheVariants.{Load, Read, Run, Job};

use crate::act::Act;
use plans::Plan;

/// A call: what it does.
#[derive(Drop)]
pub struct Call<'a, V> {
    pub(crate) act: Act<'a, V>,
}

impl<'a, V: Copy> Call<'a, V> {
    /// Loads the value into the cell.
    pub fn load(cell: u8, value: V) -> Call<'a, V>
        ensures act { result.act ≡ Load cell value }
    {
        Call {
            act: Act::Load(cell, value),
        }
    }

    /// Reads the cell.
    pub fn read(cell: u8) -> Call<'a, V>
        ensures act { result.act ≡ Read cell }
    {
        Call {
            act: Act::Read(cell),
        }
    }

    /// Raises the base by the plan.
    pub fn run(plan: Plan<'a>, base: V) -> Call<'a, V>
        ensures act { result.act ≡ Run plan.entry base }
    {
        Call {
            act: Act::Run(plan, base),
        }
    }

    /// Carries the sheet through reading, admission for the exponent `n`, and running from the base.
    pub fn job(text: &'a [u8], n: u64, base: V) -> Call<'a, V>
        ensures act { result.act ≡ Job text.entry n base }
    {
        Call {
            act: Act::Job(text, n, base),
        }
    }
}

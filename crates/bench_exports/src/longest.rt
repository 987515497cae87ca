//! Plans of as many steps as a plan can have, and their placing.
ghost use Rattle.std.specs.Prelude.{◌≡◌, length};
ghost use Rattle.bench_exports.specs.Plans.{long_step, longest, placed_longest};

use placing::place::place;
use plans::{MOST_STEPS, MOST_VALUES, NO_STEP, Plan, Step};
use refusals::Refusal;

// Step i + 1: one of the first adds a_0 to the value before it, another adds the next of a_0, a_1 and on to the last of the first.
fn long_step(counted: u8, i: u8) -> Step
    ensures { result ≡ long_step counted i }
{
    let value = u64::from(i) + 2;
    if i < counted {
        return Step {
            j: u16::from(i),
            k: 0,
            value,
        };
    }
    Step {
        j: u16::from(counted),
        k: u16::from(i - counted),
        value,
    }
}

// Writes all 128 steps.
fn write_longest(counted: u8, table: &mut [Step])
    requires { length table.old ≡ 128 }
    ensures { table.new ≡ longest counted }
{
    for (i, step) in table.iter_mut().enumerate() {
        *step = long_step(counted, i as u8);
    }
}

/// Places the plan within so many cells, and answers its need.
pub(crate) fn place_within(counted: u8, cells: u8) -> Result<u8, Refusal>
    ensures value { result ≡ placed_longest counted cells }
{
    let mut table = [NO_STEP; MOST_STEPS];
    write_longest(counted, &mut table);
    let plan = Plan::new(129, &table)?;
    let mut places = [0u8; MOST_VALUES];
    place(&plan, cells, &mut places)
}

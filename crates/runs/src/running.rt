//! A run: the base is loaded, the plan's multiplications are made in its order, and the last value is handed out.
ghost use Rattle.std.specs.Prelude.{◌≡◌, ◌+◌, ◌++◌, length, take, drop, OnOk};
ghost use Rattle.refusals.specs.Faults.{verdict, Unchanged};
ghost use Rattle.placing.specs.Placing.{Supplied};
ghost use Rattle.placing.specs.Supply.{supplied_cells};
ghost use Rattle.run_laws.specs.Runs.{run_fault, after_steps, Begun, HandsOut};
ghost use Rattle.runs.specs.Answers.{run_answer, Ran};

use crate::raised::Raised;
use kinds::Kind;
use placing::place::place;
use plans::{MOST_VALUES, Plan};
use refusals::Refusal;
use units::Unit;

// Whether a run is refused; where it is not, the first places hold the supplied cells.
fn check_run<U: Unit>(
    unit: &U,
    plan: &Plan<'_>,
    base: U::Value,
    places: &mut [u8; MOST_VALUES],
) -> Result<(), Refusal>
    ensures answer { result ≡ verdict (run_fault (U.kind unit.now) (U.state unit.now) plan.now.steps.now base) }
    ensures placed { OnOk result (Supplied plan.now.steps.now (take (length plan.now.steps.now + 1) places.new)) }
    ensures named { OnOk result (places.new ≡ supplied_cells plan.now.steps.now ++ drop (length plan.now.steps.now + 1) places.old) }
{
    if !unit.is_native(base) {
        return Err(Refusal::NotNative);
    }
    place(plan, unit.cells(), places)?;
    let length = plan.len() as u64;
    if unit.allowance() < length {
        return Err(Refusal::AllowanceBelow(length));
    }
    Ok(())
}

// Makes the multiplications of the plan's steps in their order, from the value in the cell of a_0, and reads the last value.
fn multiply_out<U: Unit>(unit: &mut U, plan: &Plan<'_>, places: &[u8]) -> Result<U::Value, Refusal>
    requires { Begun (U.kind unit.old) (U.state unit.old) plan.now.steps.now places.now }
    ensures value { HandsOut (U.kind unit.old) (U.state unit.old) plan.now.steps.now places.now result }
    ensures after { U.state unit.new ≡ after_steps (U.kind unit.old) (U.state unit.old) places.now plan.now.steps.now (length plan.now.steps.now) }
    ensures same { U.kind unit.new ≡ U.kind unit.old }
{
    for (step, to) in plan.steps().iter().zip(&places[1..]) {
        let a = places[usize::from(step.j)];
        let b = places[usize::from(step.k)];
        unit.multiply(*to, a, b)?;
    }
    unit.read(places[plan.len()])
}

/// Raises the base to the plan's exponent on the unit.
/// Refused if the base is not native, if the plan needs more cells than there are, or if the allowance is below its length, in this order.
pub fn run<U: Unit>(
    unit: &mut U,
    plan: &Plan<'_>,
    base: U::Value,
) -> Result<Raised<U::Value>, Refusal>
    ensures answer { result ≡ run_answer (U.kind unit.old) (U.state unit.old) plan.now.exponent plan.now.steps.now base }
    ensures after { Ran (U.kind unit.old) (U.state unit.old) plan.now.exponent plan.now.steps.now base result (U.state unit.new) }
    ensures refused { Unchanged result unit.old unit.new }
    ensures same { U.kind unit.new ≡ U.kind unit.old }
{
    let mut table = [0u8; MOST_VALUES];
    check_run(unit, plan, base, &mut table)?;
    let places = &table[0..plan.len() + 1];
    unit.load(places[0], base)?;
    let value = multiply_out(unit, plan, places)?;
    Ok(Raised { value })
}

//! A run on the card, under the law of the calls on a unit.
ghost use Rattle.std.specs.Prelude.{◌≡◌};
ghost use Rattle.refusals.specs.Faults.{answer as answered, Unchanged};
ghost use Rattle.kinds.specs.Powers.{power};
ghost use Rattle.run_laws.specs.Runs.{run_fault};
ghost use Rattle.fitting.specs.Fitting.{RanOnce};

use calls::{Answer, Call, perform_call};
use kinds::Kind;
use plans::Plan;
use refusals::Refusal;
use units::Unit;

// Raises the base by the plan on the unit.
pub(crate) fn run_on_card<U: Unit>(
    unit: &mut U,
    plan: &Plan<'_>,
    base: U::Value,
) -> Result<U::Value, Refusal>
    ensures answer { result ≡ answered (run_fault (U.kind unit.old) (U.state unit.old) plan.now.steps.now base) (power (U.kind unit.old) base plan.now.exponent) }
    ensures after { RanOnce (U.kind unit.old) (U.state unit.old) plan.now.exponent plan.now.steps.now base result (U.state unit.new) }
    ensures refused { Unchanged result unit.old unit.new }
    ensures same { U.kind unit.new ≡ U.kind unit.old }
{
    match perform_call(unit, &Call::run(*plan, base), &mut []) {
        Answer::Power(raised) => Ok(raised?.value),
        _ => unreachable(),
    }
}

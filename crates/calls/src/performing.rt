//! Calls on one unit: one, and a list of them made in order.
ghost use Rattle.std.specs.Prelude.{◌≡◌, [], ◌∷◌, length, drop, OnOk};
ghost use Rattle.run_laws.specs.Effects.{Law};
ghost use Rattle.refusals.specs.Faults.{Unchanged};
ghost use Rattle.calls.specs.Lists.{bench, Made, Kept, turns, Performed, events, list_answer};

use crate::act::{Act, Answer};
use crate::call::Call;
use jobs::job;
use kinds::Kind;
use plans::Step;
use refusals::Refusal;
use runs::run;
use units::Unit;

/// Makes one call, for a caller that has no list of them: the law holds of the list of that call alone.
pub fn perform_call<U: Unit>(
    unit: &mut U,
    call: &Call<'_, U::Value>,
    table: &mut [Step],
) -> Answer<U::Value>
    ensures made { Made (U.kind unit.old) (length table.old) call.now (bench (U.state unit.old) table.old) result (bench (U.state unit.new) table.new) }
    ensures law { Law (U.kind unit.old) (U.state unit.old) (events (U.kind unit.old) (length table.old) (call.now ∷ []) (result ∷ [])) (U.state unit.new) }
    ensures refused { Kept result unit.old unit.new }
    ensures same { U.kind unit.new ≡ U.kind unit.old }
{
    match &call.act {
        Act::Load(cell, value) => Answer::Loaded(unit.load(*cell, *value)),
        Act::Read(cell) => Answer::Got(unit.read(*cell)),
        Act::Run(plan, base) => Answer::Power(run(unit, plan, *base)),
        Act::Job(text, n, base) => Answer::Carried(job(unit, text, *n, *base, table)),
    }
}

/// Makes the calls in order, jobs reading into the first places of the table, and writes each answer into its place.
/// Refused, with nothing changed, if there are fewer places for answers than calls.
pub fn perform<U: Unit>(
    unit: &mut U,
    calls: &[Call<'_, U::Value>],
    answers: &mut [Answer<U::Value>],
    table: &mut [Step],
) -> Result<(), Refusal>
    ensures answer { result ≡ list_answer (length calls.now) (length answers.old) }
    ensures each { OnOk result (Performed (U.kind unit.old) (length table.old) (bench (U.state unit.old) table.old) (turns calls.now answers.new) (bench (U.state unit.new) table.new)) }
    ensures law { OnOk result (Law (U.kind unit.old) (U.state unit.old) (events (U.kind unit.old) (length table.old) calls.now answers.new) (U.state unit.new)) }
    ensures rest { drop (length calls.now) answers.new ≡ drop (length calls.now) answers.old }
    ensures refused { Unchanged result unit.old unit.new × Unchanged result answers.old answers.new × Unchanged result table.old table.new }
    ensures same { U.kind unit.new ≡ U.kind unit.old }
{
    if answers.len() < calls.len() {
        return Err(Refusal::TableShort(calls.len() as u64));
    }
    for (i, call) in calls.iter().enumerate() {
        answers[i] = perform_call(unit, call, table);
    }
    Ok(())
}

//! Trimming a plan into a second table.
ghost use Rattle.std.specs.Prelude.{◌≡◌, length, take, IfOk};
ghost use Rattle.plans.specs.Chain.{Chain};
ghost use Rattle.planning.specs.Planning.{written};
ghost use Rattle.trimming.specs.Needed.{NeededLaw};
ghost use Rattle.trimming.specs.Trim.{trimmed, trim_answer};

use crate::marking::new_numbers;
use plans::{Plan, Step};
use refusals::Refusal;

/// Writes the needed steps of the plan, renumbered, from the front of the table, and answers how many they are.
/// A value is needed if it is the last one or a needed step cites it.
pub fn trim(plan: &Plan<'_>, table: &mut [Step]) -> Result<usize, Refusal>
    ensures answer { result ≡ trim_answer plan.now.steps.now (length table.old) }
    ensures after { table.new ≡ written result (trimmed plan.now.steps.now) table.old }
    ensures needed { NeededLaw plan.now.steps.now }
    ensures chain { IfOk result (λ l. Chain plan.now.exponent (take l table.new)) }
    ensures again { trimmed (trimmed plan.now.steps.now) ≡ trimmed plan.now.steps.now }
{
    let all = new_numbers(plan);
    let numbers = all.as_slice();
    let steps = plan.steps();
    let len = usize::from(numbers[steps.len()]);
    if table.len() < len {
        return Err(Refusal::TableShort(len as u64));
    }
    for (i, step) in steps.iter().enumerate() {
        let at = numbers[i];
        if at < numbers[i + 1] {
            table[usize::from(at)] = Step {
                j: numbers[usize::from(step.j)],
                k: numbers[usize::from(step.k)],
                value: step.value,
            };
        }
    }
    Ok(len)
}

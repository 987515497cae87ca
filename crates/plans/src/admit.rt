//! The rules of a plan, checked in their order.
ghost use Rattle.std.specs.Prelude.{◌≡◌, ℕ, ◌^◌, ◌<◌, ◌≤◌, [], ◌∷◌, ◌++◌, length};
ghost use Rattle.plans.specs.Admission.{admission, step_answer};
ghost use Rattle.plans.specs.Chain.{value_at};

use crate::limits::{MOST_STEPS, TOP_EXPONENT};
use crate::step::Step;
use refusals::Refusal;

// The value a_i of the steps, a_0 being 1.
fn value_at(steps: &[Step], i: usize) -> u64
    requires { i ≤ length steps.now }
    ensures { result ≡ value_at steps.now i }
{
    if i == 0 {
        return 1;
    }
    steps[i - 1].value
}

// Whether a step keeps the rules after those before it, which keep them.
fn check_step(n: u64, before: &[Step], step: &Step) -> Result<(), Refusal>
    requires short { length before.now < 128 }
    requires bounded { n < 2 ^ 63 }
    requires below { (m : ℕ) → m ≤ length before.now → value_at before.now m ≤ n }
    ensures { result ≡ step_answer n (before.now ++ (step.now ∷ [])) (length before.now) }
{
    let number = (before.len() + 1) as u64;
    let j = usize::from(step.j);
    let k = usize::from(step.k);
    if k > j || j > before.len() {
        return Err(Refusal::Citation(number));
    }
    if step.value != value_at(before, j) + value_at(before, k) {
        return Err(Refusal::NotSum(number));
    }
    if step.value <= value_at(before, before.len()) || step.value > n {
        return Err(Refusal::NotRising(number));
    }
    Ok(())
}

// Whether the steps are an ascending addition chain for n. The rules in their order: the exponent, the length, each step, and that n is reached.
pub(crate) fn check_chain(n: u64, steps: &[Step]) -> Result<(), Refusal>
    ensures { result ≡ admission n steps.now }
{
    if n == 0 || n > TOP_EXPONENT {
        return Err(Refusal::Exponent);
    }
    if steps.len() > MOST_STEPS {
        return Err(Refusal::TooLong);
    }
    for (i, step) in steps.iter().enumerate() {
        check_step(n, &steps[..i], step)?;
    }
    if value_at(steps, steps.len()) != n {
        return Err(Refusal::NotReached(steps.len() as u64));
    }
    Ok(())
}

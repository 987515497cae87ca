//! The powers that a plan gives, written into the caller's slice.
ghost use Rattle.std.specs.Prelude.{◌≡◌, length};
ghost use Rattle.kinds.specs.Powers.{PowersAdd};
ghost use Rattle.straight_runs.specs.Straight.{straight_answer, straight_after};

use kinds::Kind;
use plans::Plan;
use refusals::Refusal;

/// Writes the powers a_0 to a_r of the base into the first r + 1 places, each as the product of two before it.
pub fn straight_run<K: Kind>(
    kind: &K,
    plan: &Plan<'_>,
    base: K::Value,
    powers: &mut [K::Value],
) -> Result<(), Refusal>
    ensures answer { result ≡ straight_answer (K.kind kind.now) plan.now.steps.now base (length powers.old) }
    ensures after { powers.new ≡ straight_after (K.kind kind.now) plan.now.steps.now base powers.old }
    ensures powers { PowersAdd (K.kind kind.now) }
{
    if !kind.is_native(base) {
        return Err(Refusal::NotNative);
    }
    let steps = plan.steps();
    let wanted = steps.len() + 1;
    if powers.len() < wanted {
        return Err(Refusal::TableShort(wanted as u64));
    }
    powers[0] = base;
    for (i, step) in steps.iter().enumerate() {
        let a = powers[usize::from(step.j)];
        let b = powers[usize::from(step.k)];
        powers[i + 1] = kind.product(a, b).unwrap();
    }
    Ok(())
}

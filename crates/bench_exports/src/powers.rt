//! Powers by the plan from left to right.
ghost use Rattle.std.specs.Prelude.{◌≡◌};
ghost use Rattle.bench_exports.specs.Powers.{raised};

use binary_plans::left_to_right;
use plans::{NO_STEP, Plan, Step};
use polynomials::{Register, Word};
use refusals::Refusal;
use straight_runs::straight_run;

/// Power n of the base, by a straight run of the plan from left to right.
pub(crate) fn raise(kind: &Register, base: Word, n: u64) -> Result<Word, Refusal>
    ensures value { result ≡ raised kind.now.modulus.value base n }
{
    let mut table = [NO_STEP; 128];
    let len = left_to_right(n, &mut table)?;
    let plan = Plan::new(n, &table[..len])?;
    let mut powers = [base; 129];
    straight_run(kind, &plan, base, &mut powers)?;
    Ok(powers[len])
}

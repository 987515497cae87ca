//! The factor method.
ghost use Rattle.std.specs.Prelude.{◌≡◌, ◌+◌, ◌*◌, ◌^◌, ◌<◌, ◌≤◌, ◌++◌, map, length, take, drop, IfOk};
ghost use Rattle.std.proofs.lemmas.List.Edits.{sets};
ghost use Rattle.plans.specs.Chain.{Chain};
ghost use Rattle.bits.specs.Bits.{top};
ghost use Rattle.planning.specs.Planning.{planned, written};
ghost use Rattle.factor_plans.specs.Factor.{allows_factor, shifted, factor_plan, FactorRule};

use crate::divisor::least_divisor;
use planning::{Reached, StepWriter, check_request};
use plans::{MOST_STEPS, Step};
use refusals::Refusal;

/// The largest exponent of the factor method.
pub const TOP_FACTORED: u64 = 0xffff_ffff;

// Writes the plan of n behind the steps that stand, its a_0 being the value `one` of the plan under way. Answers the value that it reaches, n times that one.
fn factor_into(n: u64, one: Reached, steps: &mut StepWriter<'_>) -> Reached
    requires low { 1 ≤ n }
    requires high { n * one.value < 2 ^ 64 }
    requires room { steps.old.len + length (factor_plan n) < 128 }
    requires number { one.number ≡ steps.old.len }
    ensures same_table { steps.new.table.ghost_name ≡ steps.old.table.ghost_name }
    ensures table { steps.new.table.now ≡ sets steps.old.table.now steps.old.len (map (shifted one.number one.value) (factor_plan n)) }
    ensures len { steps.new.len ≡ steps.old.len + length (factor_plan n) }
    ensures number { result.number ≡ steps.new.len }
    ensures value { result.value ≡ n * one.value }
{
    let Some(p) = least_divisor(n) else {
        return one;
    };
    if p == n {
        let before = factor_into(n - 1, one, steps);
        return steps.add(before, one).unwrap();
    }
    let at_p = factor_into(p, one, steps);
    factor_into(n / p, at_p, steps)
}

// Writes the plan. Answers how many steps it has.
fn write_plan(n: u64, places: &mut [Step; MOST_STEPS]) -> usize
    requires positive { 1 ≤ n }
    requires bounded { n < 2 ^ 63 }
    ensures count { result ≡ length (factor_plan n) }
    ensures within { result ≤ 128 }
    ensures after { places.new ≡ factor_plan n ++ drop (length (factor_plan n)) places.old }
{
    let mut steps = StepWriter::new(places);
    factor_into(n, Reached::ONE, &mut steps);
    steps.len()
}

/// The factor method. The plan of a prime is that of the number before it and a step that adds a_0; with the smallest divisor p above 1, the plan of a
/// product n = p·q is the plan of p followed by the plan of q, its values times p and its a_0 being p.
#[tactic(auto, using(crate::proofs::Factors::factor_rule))]
pub fn factor(n: u64, table: &mut [Step]) -> Result<usize, Refusal>
    ensures answer { result ≡ planned (allows_factor n) n (factor_plan n) (length table.old) }
    ensures after { table.new ≡ written result (factor_plan n) table.old }
    ensures rule { FactorRule }
    ensures within { IfOk result (λ l. l ≤ 128) }
    ensures short { IfOk result (λ l. l ≤ 2 * top n) }
    ensures chain { IfOk result (λ l. Chain n (take l table.new)) }
{
    check_request(n <= TOP_FACTORED, n, table.len())?;
    let Some(places) = table.first_chunk_mut() else {
        unreachable!()
    };
    Ok(write_plan(n, places))
}

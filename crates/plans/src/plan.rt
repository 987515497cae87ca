//! The admitted plan.
ghost use Rattle.std.specs.Prelude.{◌≡◌, ◌^◌, ◌<◌, ◌≤◌, [], length, is_ok, IfOk, IfErr, Ok, Err, Decides, MatchResult};
ghost use Rattle.plans.specs.Admission.{admission};
ghost use Rattle.plans.specs.Chain.{Cites, Sums, Rises, Reaches, Chain};
ghost use Rattle.plans.specs.FirstFault.{FirstFault};

use crate::admit::check_chain;
use crate::step::Step;
use refusals::Refusal;

/// An admitted plan: borrowed steps that are an ascending addition chain for its exponent.
/// Its ghost fields are the rules, one each, so whoever holds a plan holds a chain.
#[derive(Clone, Copy)]
pub struct Plan<'a> {
    exponent: u64,
    steps: &'a [Step],
    ghost positive: { 1 ≤ exponent },
    ghost bounded: { exponent < 2 ^ 63 },
    ghost short: { length steps.now ≤ 128 },
    ghost cites: { Cites steps.now },
    ghost sums: { Sums steps.now },
    ghost rises: { Rises exponent steps.now },
    ghost reaches: { Reaches exponent steps.now },
}

impl<'a> Plan<'a> {
    /// The plan of the exponent 1, which has no steps.
    pub fn one() -> Plan<'a>
        ensures exponent { result.exponent ≡ 1 }
        ensures steps { result.steps.now ≡ [] }
    {
        Plan {
            exponent: 1,
            steps: &[],
        }
    }

    /// The plan of n that these steps are, if they are admitted.
    /// The rules are checked in order: the exponent, the length, step by step the citation, the sum, the rise, and last that n is reached.
    pub fn new(n: u64, steps: &'a [Step]) -> Result<Plan<'a>, Refusal>
        ensures answer { MatchResult result (λ _. admission n steps.now ≡ Ok tt) (λ e. admission n steps.now ≡ Err e) }
        ensures plan { IfOk result (λ p. (p.exponent ≡ n) × (p.steps.now ≡ steps.now)) }
        ensures exactly { Decides (is_ok result) (Chain n steps.now) }
        ensures refused { IfErr result (λ e. FirstFault n steps.now e) }
    {
        let mut plan = Plan::one();
        plan.admit(n, steps)?;
        Ok(plan)
    }

    /// Admits the steps as a plan of n into this place, by the same rules; refused, the place stays as it was.
    pub fn admit(&mut self, n: u64, steps: &'a [Step]) -> Result<(), Refusal>
        ensures answer { result ≡ admission n steps.now }
        ensures exactly { Decides (is_ok result) (Chain n steps.now) }
        ensures refused { IfErr result (λ e. FirstFault n steps.now e) }
        ensures after { MatchResult result (λ _. (self.new.exponent ≡ n) × (self.new.steps.now ≡ steps.now)) (λ _. self.new ≡ self.old) }
    {
        check_chain(n, steps)?;
        *self = Plan { exponent: n, steps };
        Ok(())
    }

    /// The exponent.
    pub fn exponent(&self) -> u64
        ensures { result ≡ self.now.exponent }
    {
        self.exponent
    }

    /// The steps, for as long as they were lent.
    pub fn steps(&self) -> &'a [Step]
        ensures steps { result.now ≡ self.now.steps.now }
        ensures chain { Chain self.now.exponent result.now }
    {
        self.steps
    }

    /// How many steps there are: the multiplications that the plan takes.
    pub fn len(&self) -> usize
        ensures count { result ≡ length self.now.steps.now }
        ensures short { result ≤ 128 }
    {
        self.steps.len()
    }
}

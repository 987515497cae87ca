//! Straight runs for every kind by plans from the highest bit down and from bit 0 up, each power compared with repeated multiplication, and their refusals.
use binary_plans::{left_to_right, right_to_left};
use kinds::{Counts, Kind, Residues};
use plain_numbers::refused::{NOT_NATIVE, TABLE_SHORT};
use plain_numbers::{Number, Refused, Rule};
use plans::{MOST_STEPS, NO_STEP, Plan, Step};
use polynomials::Register;
use refusals::Refusal;
use std::alloc::{AllocError, Global};
use std::num::Saturating;
use std::{fmt, iter};
use straight_runs::straight_run;

// A kind, a base, and a value that is not native.
#[derive(Clone, Copy)]
struct Case {
    rule: Rule,
    base: u64,
    foreign: u64,
}

const CASES: [Case; 6] = [
    Case {
        rule: Rule::Sums,
        base: 3,
        foreign: 0x8000_0000_0000_0000,
    },
    Case {
        rule: Rule::Sums,
        base: 0x1000_0000_0000_0000,
        foreign: 0xffff_ffff_ffff_ffff,
    },
    Case {
        rule: Rule::Residues(97),
        base: 5,
        foreign: 97,
    },
    Case {
        rule: Rule::Residues(4294967295),
        base: 65537,
        foreign: 4294967295,
    },
    Case {
        rule: Rule::Polynomials(0x11b),
        base: 3,
        foreign: 0x100,
    },
    Case {
        rule: Rule::Polynomials(0x8000_0000_0000_0003),
        base: 0x0123_4567_89ab_cdef,
        foreign: 0x8000_0000_0000_0000,
    },
];

const EXPONENTS: [u64; 10] = [1, 2, 3, 7, 23, 55, 127, 128, 156, 200];

// What a place holds before a run.
const UNWRITTEN: u64 = 0xabc_def;

// The powers 0 to 200 of a base; place 0 is not used.
type Powers = [u64; 201];

/// What came of the straight runs.
#[derive(Clone, Copy, Default)]
pub(crate) struct Straight {
    // How many were accepted by the rules, and the powers that they wrote.
    runs: Saturating<u32>,
    powers: Saturating<usize>,
    // How many were refused by the rules.
    refused: Saturating<u32>,
    // How many differ.
    differ: Saturating<u32>,
}

impl fmt::Display for Straight {
    fn fmt<W: fmt::Write>(&self, f: &mut fmt::Formatter<W>) -> fmt::Result {
        let Straight {
            runs,
            powers,
            refused,
            differ,
        } = self;
        write!(
            f,
            "{runs} accepted with {powers} powers, {refused} refused; {differ} differ"
        )
    }
}

impl Straight {
    fn expect(&mut self, holds: bool) {
        self.differ += u32::from(!holds);
    }
}

fn is_unwritten<V: Number>(place: &V) -> bool {
    place.number() == UNWRITTEN
}

// Whether the first places hold the powers of the steps' values, and the others nothing.
fn are_powers<V: Number>(places: &[V], steps: &[Step], powers: &Powers) -> bool {
    let Some((written, others)) = places.split_at_checked(steps.len() + 1) else {
        return false;
    };
    let values = iter::once(1).chain(steps.iter().map(|step| step.value));
    written.iter().zip(values).all(|(place, n)| powers.get(n as usize) == Some(&place.number()))
        && others.iter().all(is_unwritten)
}

// The straight runs of a case, with its powers by repeated multiplication, and what came of all runs so far.
#[derive(Drop)]
struct Trial<'a> {
    heap: Global,
    case: Case,
    powers: Powers,
    tally: &'a mut Straight,
}

impl<'a> Trial<'a> {
    // A plan's straight runs in too few places, from a foreign base and from the base, which are refused and write nothing.
    fn refuse<K: Kind>(&mut self, kind: &K, plan: &Plan<'_>, places: &mut [K::Value])
    where
        K::Value: Number,
    {
        let answer = straight_run(kind, plan, K::Value::of(self.case.foreign), places);
        self.tally.expect(answer.map_err(Refused::from) == Err(Refused(NOT_NATIVE, 0)));
        let answer = straight_run(kind, plan, K::Value::of(self.case.base), places);
        self.tally.expect(
            answer.map_err(Refused::from) == Err(Refused(TABLE_SHORT, plan.len() as u64 + 1)),
        );
        self.tally.expect(places.iter().all(is_unwritten));
        self.tally.refused += 2;
    }

    // A plan's straight runs that are refused, and one with a place more than it wants.
    fn raise<K: Kind>(&mut self, kind: &K, plan: &Plan<'_>) -> Result<(), AllocError>
    where
        K::Value: Number,
    {
        let unwritten = K::Value::of(UNWRITTEN);
        let mut places = vec![in self.heap; unwritten; plan.len()]?;
        self.refuse(kind, plan, places.as_mut_slice());
        let mut places = vec![in self.heap; unwritten; plan.len() + 2]?;
        let base = K::Value::of(self.case.base);
        let answer = straight_run(kind, plan, base, places.as_mut_slice());
        self.tally.expect(answer.is_ok());
        self.tally
            .expect(are_powers(places.as_slice(), plan.steps(), &self.powers));
        self.tally.runs += 1;
        self.tally.powers += plan.len() + 1;
        Ok(())
    }

    // A plan's straight run for the kind of the case.
    fn raise_case(&mut self, plan: &Plan<'_>) -> Result<(), AllocError> {
        match self.case.rule {
            Rule::Sums => self.raise(&Counts, plan)?,
            Rule::Residues(p) => match Residues::new(p) {
                Ok(kind) => self.raise(&kind, plan)?,
                Err(_) => self.tally.expect(false),
            },
            Rule::Polynomials(f) => match Register::new(f) {
                Ok(kind) => self.raise(&kind, plan)?,
                Err(_) => self.tally.expect(false),
            },
        }
        Ok(())
    }

    // The straight run of the case by a method's plan of n.
    fn raise_by<F: FnOnce(u64, &mut [Step]) -> Result<usize, Refusal>>(
        &mut self,
        method: F,
        n: u64,
    ) -> Result<(), AllocError>
        requires { F.IsAlwaysCallable method }
    {
        let mut table = [NO_STEP; MOST_STEPS];
        let length = method(n, &mut table).unwrap_or(0).min(MOST_STEPS);
        let Ok(plan) = Plan::new(n, &table[..length]) else {
            self.tally.expect(false);
            return Ok(());
        };
        self.raise_case(&plan)
    }
}

/// All straight runs.
pub(crate) fn try_straight_runs(heap: Global) -> Result<Straight, AllocError> {
    let mut tally = Straight::default();
    for case in CASES {
        let mut trial = Trial {
            heap,
            case,
            powers: case.rule.powers(case.base),
            tally: &mut tally,
        };
        for n in EXPONENTS {
            trial.raise_by(left_to_right, n)?;
            trial.raise_by(right_to_left, n)?;
        }
    }
    Ok(tally)
}

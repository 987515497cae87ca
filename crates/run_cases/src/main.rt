//! Runs the plans of every exponent up to 200, by every method and width, on the banks of every kind, and compares each power with repeated multiplication;
//! and again in a window of as many cells as the plan needs, and of one less, where it is refused.
//! Then runs them under a run sheet, and compares its records, worked in sums, with the values of the plan.
#![tactic(auto)]

use banks::{CountsBank, RegisterBank, ResiduesBank};
use kinds::{Count, Counts, Residues};
use methods::Method;
use plain_numbers::refused::NEED_ABOVE;
use plain_numbers::{LARGEST_COUNT, METHODS, Number, PlanTables, Refused, Rule};
use plans::{Plan, Step};
use polynomials::Register;
use refusals::Refusal;
use run_sheet::RunSheet;
use runs::run;
use std::num::Saturating;
use std::{fmt, io};
use units::{Record, Unit};
use window::Window;

const TOP: u64 = 200;

// The powers 0 to 200 of a base.
const POWERS: usize = 201;

// What a bank may multiply, and the cells that it has.
const ALLOWANCE: u64 = 1000;

const CELLS: usize = 32;

// What is raised on a bank: a kind and a base.
const BASES: [(Rule, u64); 22] = [
    (Rule::Sums, 0),
    (Rule::Sums, 1),
    (Rule::Sums, 3),
    (Rule::Sums, 0x1000_0000_0000_0000),
    (Rule::Sums, LARGEST_COUNT),
    (Rule::Residues(2), 0),
    (Rule::Residues(2), 1),
    (Rule::Residues(3), 2),
    (Rule::Residues(97), 5),
    (Rule::Residues(65536), 3),
    (Rule::Residues(4294967291), 65537),
    (Rule::Residues(4294967295), 2),
    (Rule::Residues(4294967295), 3),
    (Rule::Residues(4294967295), 4294967294),
    (Rule::Polynomials(2), 0),
    (Rule::Polynomials(2), 1),
    (Rule::Polynomials(3), 1),
    (Rule::Polynomials(0x11b), 3),
    (Rule::Polynomials(0x8000_0000_0000_0003), 2),
    (
        Rule::Polynomials(0x8000_0000_0000_0003),
        0x7fff_ffff_ffff_ffff,
    ),
    (Rule::Polynomials(0x8000_0000_0000_0000), 3),
    (
        Rule::Polynomials(0xffff_ffff_ffff_ffff),
        0x0123_4567_89ab_cdef,
    ),
];

// A base of a kind, and its powers by repeated multiplication; place 0 is not used.
#[derive(Drop)]
struct Case {
    rule: Rule,
    base: u64,
    powers: [u64; POWERS],
}

// What a run comes to: the power, or the refusal, and the allowance left.
#[derive(Clone, Copy, PartialEq, Eq)]
struct Outcome {
    power: Result<u64, Refused>,
    left: u64,
}

// What came out of the plans.
#[derive(Clone, Copy, Default)]
struct Tally {
    runs: Saturating<u32>,
    refused: Saturating<u32>,
    wrong: Saturating<u32>,
    sheets: Saturating<u32>,
    different: Saturating<u32>,
}

impl fmt::Display for Tally {
    fn fmt<W: fmt::Write>(&self, f: &mut fmt::Formatter<W>) -> fmt::Result {
        let Tally {
            runs,
            refused,
            wrong,
            sheets,
            different,
        } = self;
        writeln!(
            f,
            "{runs} runs handed out the power, {refused} were refused 23; {wrong} wrong"
        )?;
        write!(
            f,
            "{sheets} run sheets gave the values of the plan in order; {different} different"
        )
    }
}

// A base of a kind, with its powers.
fn case_of(rule: Rule, base: u64) -> Case {
    let powers = rule.powers(base);
    Case { rule, base, powers }
}

// Whether one of the steps cites value i.
fn is_cited(steps: &[Step], i: usize) -> bool {
    steps.iter().any(|step| usize::from(step.j) == i || usize::from(step.k) == i)
}

// How many values are held once value s is there: that value, and the earlier ones that are cited after step s.
fn plain_held(steps: &[Step], s: usize) -> usize {
    let later = steps.get(s..).unwrap_or(&[]);
    (0..s)
        .filter(|i| is_cited(later, *i))
        .count()
        .saturating_add(1)
}

// The need of a plan: the most values that are held at once.
fn plain_need(steps: &[Step]) -> usize {
    (0..steps.len() + 1)
        .map(|s| plain_held(steps, s))
        .max()
        .unwrap_or(1)
}

// What a run in so many cells should come to.
fn plain_outcome(power: u64, need: usize, cells: usize, length: usize) -> Outcome {
    if need > cells {
        return Outcome {
            power: Err(Refused(NEED_ABOVE, need as u64)),
            left: ALLOWANCE,
        };
    }
    Outcome {
        power: Ok(power),
        left: ALLOWANCE.saturating_sub(length as u64),
    }
}

// What a run on a unit comes to.
fn run_on<U: Unit>(unit: &mut U, plan: &Plan<'_>, base: u64) -> Outcome
where
    U::Value: Number,
{
    let answer = run(unit, plan, U::Value::of(base));
    Outcome {
        power: answer
            .map(|raised| raised.value.number())
            .map_err(Refused::from),
        left: unit.allowance(),
    }
}

// What a run on a bank comes to, or in so many of its cells.
fn run_within<U: Unit + Drop>(mut bank: U, cells: Option<u8>, plan: &Plan<'_>, base: u64) -> Outcome
where
    U::Value: Number,
{
    match cells {
        Some(cells) => run_on(&mut Window::new(bank, 3, cells), plan, base),
        None => run_on(&mut bank, plan, base),
    }
}

// What a run of a case comes to on a new bank, or in so many of its cells; refused where there is no such kind.
fn run_case(case: &Case, cells: Option<u8>, plan: &Plan<'_>) -> Result<Outcome, Refusal> {
    let base = case.base;
    Ok(match case.rule {
        Rule::Sums => run_within(CountsBank::new(ALLOWANCE), cells, plan, base),
        Rule::Residues(p) => {
            run_within(
                ResiduesBank::new(Residues::new(p)?, ALLOWANCE),
                cells,
                plan,
                base,
            )
        }
        Rule::Polynomials(f) => {
            run_within(
                RegisterBank::new(Register::new(f)?, ALLOWANCE),
                cells,
                plan,
                base,
            )
        }
    })
}

// Whether the records of a run from 1, worked in sums from 1 in cell 0, are the values of the plan in order.
fn is_recorded(plan: &Plan<'_>) -> bool {
    let mut sheet = RunSheet::new(CountsBank::new(ALLOWANCE));
    if run(&mut sheet, plan, Count::from(1)).is_err() || sheet.len() != plan.len() {
        return false;
    }
    let mut sums = [0u64; 256];
    sums[0] = 1;
    for (record, step) in sheet.records().iter().zip(plan.steps()) {
        let Record { to, a, b } = *record;
        let sum = sums[usize::from(a)].saturating_add(sums[usize::from(b)]);
        sums[usize::from(to)] = sum;
        if sum != step.value {
            return false;
        }
    }
    true
}

// The cases, and what came of the plans that were run on them.
#[derive(Drop)]
struct Trials<'a> {
    cases: &'a [Case],
    tally: Tally,
}

impl<'a> Trials<'a> {
    // Runs a plan on a bank of every case, or in so many of its cells, and compares each outcome.
    fn try_cases(&mut self, plan: &Plan<'_>, cells: Option<u8>) {
        let need = plain_need(plan.steps());
        let room = cells.map_or(CELLS, usize::from);
        for case in self.cases {
            let power = case
                .powers
                .get(plan.exponent() as usize)
                .copied()
                .unwrap_or(0);
            let expected = plain_outcome(power, need, room, plan.len());
            self.tally.wrong += u32::from(run_case(case, cells, plan) != Ok(expected));
            self.tally.refused += u32::from(need > room);
            self.tally.runs += u32::from(need <= room);
        }
    }

    // Runs a plan on whole banks, in the cells that it needs, and in one less.
    fn try_banks(&mut self, plan: &Plan<'_>) {
        let need = plain_need(plan.steps()).min(255) as u8;
        for cells in [None, Some(need), Some(need.saturating_sub(1))] {
            self.try_cases(plan, cells);
        }
    }

    // Runs a plan under a run sheet, and compares its records.
    fn try_sheet(&mut self, plan: &Plan<'_>) {
        if plain_need(plan.steps()) <= CELLS {
            self.tally.sheets += 1;
            self.tally.different += u32::from(!is_recorded(plan));
        }
    }

    // Plans n by a method, and runs the plan.
    fn try_one(&mut self, method: Method, n: u64, tables: &mut PlanTables) -> Result<(), Refusal> {
        let length = method.plan(n, &mut tables.steps, &mut tables.parents)?;
        let plan = Plan::new(n, &tables.steps[..length])?;
        self.try_banks(&plan);
        self.try_sheet(&plan);
        Ok(())
    }

    // All exponents by one method.
    fn try_method(&mut self, method: Method, tables: &mut PlanTables) {
        for n in 1..=TOP {
            let tried = self.try_one(method, n, tables);
            self.tally.wrong += u32::from(tried.is_err());
        }
    }
}

fn main(rt: HostRuntime) -> io::Result<()> {
    let mut tables = PlanTables::new();
    let mut trials = Trials {
        cases: &BASES.map(|(rule, base)| case_of(rule, base)),
        tally: Tally::default(),
    };
    for method in METHODS {
        trials.try_method(method, &mut tables);
    }
    let tally = trials.tally;
    println!(rt; "{tally}")
}

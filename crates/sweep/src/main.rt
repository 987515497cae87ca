//! Plans every exponent up to 1,024 by every method and width, admits each plan, compares its length with the formula, trims it, and admits what is left.
#![tactic(auto)]

use methods::Method;
use plain_numbers::{METHODS, PlanTables};
use plans::{MOST_STEPS, NO_STEP, Plan, Step};
use std::num::Saturating;
use std::{fmt, io};
use trimming::trim;

const TOP: u64 = 1024;

// What came out of the plans.
#[derive(Clone, Copy, Default)]
struct Tally {
    planned: Saturating<u32>,
    faults: Saturating<u32>,
    trimmed: Saturating<u32>,
}

impl fmt::Display for Tally {
    fn fmt<W: fmt::Write>(&self, f: &mut fmt::Formatter<W>) -> fmt::Result {
        let Tally {
            planned,
            faults,
            trimmed,
        } = self;
        writeln!(
            f,
            "{planned} plans admitted, of their length, and admitted again when trimmed; {faults} faults"
        )?;
        write!(f, "{trimmed} plans had idle steps")
    }
}

// The length that the formula gives for the plan of n by digits of so many bits.
fn digits_length(n: u64, width: u32) -> u64 {
    let m = 1u64 << width.min(5);
    if n < m {
        return n.saturating_sub(1);
    }
    let mut rest = n;
    let mut lower = 0u64;
    let mut zeros = 0u64;
    for _ in 0..64 {
        if rest < m {
            break;
        }
        zeros = zeros.saturating_add(u64::from(rest % m == 0));
        rest /= m;
        lower = lower.saturating_add(1);
    }
    let bits = u64::from(width).saturating_mul(lower).saturating_add(lower);
    let skipped = u64::from(width).saturating_sub(1).saturating_sub(top(rest));
    m.saturating_sub(2)
        .saturating_add(bits)
        .saturating_sub(zeros)
        .saturating_sub(skipped)
}

// The place of the highest one bit; 0 for 0, which has none.
fn top(n: u64) -> u64 {
    n.checked_ilog2().map_or(0, u64::from)
}

// Whether a plan of n by the method may have this length.
fn has_length(method: Method, n: u64, length: u64) -> bool {
    let binary = top(n)
        .saturating_add(u64::from(n.count_ones()))
        .saturating_sub(1);
    match method {
        Method::LeftToRight | Method::RightToLeft => length == binary,
        Method::Factor => length <= top(n).saturating_mul(2),
        Method::Digits(width) => length == digits_length(n, width),
        Method::Tree => length <= binary,
    }
}

// Plans, admits and trims one exponent into a second table; answers whether the plan lost steps, or nothing where something is wrong.
fn try_one(method: Method, n: u64, tables: &mut PlanTables, trimmed: &mut [Step]) -> Option<bool> {
    let length = method.plan(n, &mut tables.steps, &mut tables.parents).ok()?;
    let plan = Plan::new(n, tables.steps.get(..length)?).ok()?;
    if !has_length(method, n, length as u64) {
        return None;
    }
    let left = trim(&plan, trimmed).ok()?;
    Plan::new(n, trimmed.get(..left)?).ok()?;
    Some(left < length)
}

fn main(rt: HostRuntime) -> io::Result<()> {
    let mut tables = PlanTables::new();
    let mut trimmed = [NO_STEP; MOST_STEPS];
    let mut tally = Tally::default();
    for method in METHODS {
        for n in 1..=TOP {
            match try_one(method, n, &mut tables, &mut trimmed) {
                Some(lost) => {
                    tally.planned += 1;
                    tally.trimmed += u32::from(lost);
                }
                None => tally.faults += 1,
            }
        }
    }
    println!(rt; "{tally}")
}

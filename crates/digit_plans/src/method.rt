//! The plan by digits.
ghost use Rattle.std.specs.Prelude.{◌≡◌, ◌^◌, ◌<◌, ◌≤◌, ◌++◌, length, take, drop, IfOk};
ghost use Rattle.plans.specs.Chain.{Chain};
ghost use Rattle.planning.specs.Planning.{planned, written};
ghost use Rattle.digit_plans.specs.Digits.{is_width, digits_plan, DigitsRule, digits_length};

use crate::parts::{listed, write_digit, write_list};
use crate::widths::Width;
use planning::{StepWriter, check_request};
use plans::{MOST_STEPS, Step};
use refusals::Refusal;

// Writes the plan. Answers how many steps it has. It is kept out of its callers: in line, the benchmark's plans took a tenth longer.
#[inline(never)]
fn write_plan(n: u64, width: Width, places: &mut [Step; MOST_STEPS]) -> usize
    requires positive { 1 ≤ n }
    requires bounded { n < 2 ^ 63 }
    ensures count { result ≡ length (digits_plan width.bits n) }
    ensures within { result ≤ 128 }
    ensures after { places.new ≡ digits_plan width.bits n ++ drop (length (digits_plan width.bits n)) places.old }
{
    let mut steps = StepWriter::new(places);
    let m = width.digit_count();
    if n < m {
        write_list(&mut steps, n);
        return steps.len();
    }
    write_list(&mut steps, m - 1);
    let below = n.ilog2() / width.bits;
    let mut last = listed(n >> (below * width.bits));
    for place in (0..below).rev() {
        let digit = (n >> (place * width.bits)) % m;
        last = write_digit(&mut steps, width, last, digit);
    }
    steps.len()
}

/// Plans n by its digits of so many bits, into the front of the table: the list 1, 2, up to 2^width - 1, and then, from the top digit down, a doubling for each bit of a digit and the next digit added unless it is 0.
/// A doubling that stays below 2^width is no step, its value being in the list. For n below 2^width the plan is the list up to n.
/// Answers how many steps there are.
#[tactic(auto, using(crate::proofs::DigitRule::digits_rule))]
pub fn digits(n: u64, width: u32, table: &mut [Step]) -> Result<usize, Refusal>
    ensures answer { result ≡ planned (is_width width) n (digits_plan width n) (length table.old) }
    ensures after { table.new ≡ written result (digits_plan width n) table.old }
    ensures rule { DigitsRule }
    ensures within { IfOk result (λ l. l ≤ 128) }
    ensures count { IfOk result (λ l. l ≡ digits_length width n) }
    ensures chain { IfOk result (λ l. Chain n (take l table.new)) }
{
    check_request(Width::try_from(width).is_ok(), n, table.len())?;
    let width = Width::try_from(width)?;
    let Some(places) = table.first_chunk_mut() else {
        unreachable!()
    };
    Ok(write_plan(n, width, places))
}

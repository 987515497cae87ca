//! From bit 0 up: add the square to the sum at a one bit, and double the square.
ghost use Rattle.std.specs.Prelude.{◌≡◌, ◌+◌, ◌-◌, ◌^◌, ◌<◌, ◌≤◌, true, ◌++◌, length, take, drop, IfOk, count_ones};
ghost use Rattle.plans.specs.Chain.{Chain};
ghost use Rattle.bits.specs.Bits.{top};
ghost use Rattle.planning.specs.Planning.{planned, written};
ghost use Rattle.binary_plans.specs.RightToLeft.{right_to_left, RightToLeftRule};

use planning::{Reached, StepWriter, check_request};
use plans::{MOST_STEPS, Step};
use refusals::Refusal;

// Writes the plan. Answers how many steps it has. It is kept out of its callers: in the exported plan_checksum its loop took a third longer.
#[inline(never)]
fn write_plan(n: u64, places: &mut [Step; MOST_STEPS]) -> usize
    requires positive { 1 ≤ n }
    requires bounded { n < 2 ^ 63 }
    ensures count { result ≡ length (right_to_left n) }
    ensures within { result ≤ 128 }
    ensures after { places.new ≡ right_to_left n ++ drop (length (right_to_left n)) places.old }
{
    let mut steps = StepWriter::new(places);
    let mut square = Reached::ONE;
    let mut sum: Option<Reached> = None;
    for bit in 0..n.ilog2() {
        if (n >> bit) % 2 == 1 {
            sum = Some(match sum {
                None => square,
                Some(low) => steps.add(square, low).unwrap(),
            });
        }
        square = steps.add(square, square).unwrap();
    }
    if let Some(low) = sum {
        steps.add(square, low).unwrap();
    }
    steps.len()
}

/// Plans n from bit 0 up, into the front of the table: the square is added to the sum at each one bit, the first setting the sum without a step, and then doubled if a higher one bit is left.
/// Answers how many steps there are.
#[tactic(auto, using(crate::proofs::RightRule::right_to_left_rule))]
pub fn right_to_left(n: u64, table: &mut [Step]) -> Result<usize, Refusal>
    ensures answer { result ≡ planned true n (right_to_left n) (length table.old) }
    ensures after { table.new ≡ written result (right_to_left n) table.old }
    ensures rule { RightToLeftRule }
    ensures within { IfOk result (λ l. l ≤ 128) }
    ensures count { IfOk result (λ l. l ≡ top n + count_ones n - 1) }
    ensures chain { IfOk result (λ l. Chain n (take l table.new)) }
{
    check_request(true, n, table.len())?;
    let Some(places) = table.first_chunk_mut() else {
        unreachable!()
    };
    Ok(write_plan(n, places))
}

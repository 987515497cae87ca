//! From the highest bit down: double, and add 1 at a one bit.
ghost use Rattle.std.specs.Prelude.{◌≡◌, ◌+◌, ◌-◌, ◌*◌, ◌^◌, ◌<◌, ◌≤◌, true, ◌++◌, length, take, drop, IfOk, OnOk, count_ones};
ghost use Rattle.plans.specs.Chain.{Chain};
ghost use Rattle.bits.specs.Bits.{top};
ghost use Rattle.planning.specs.Planning.{planned, written};
ghost use Rattle.binary_plans.specs.LeftToRight.{left_to_right, LeftToRightRule};

use planning::check_request;
use plans::{MOST_STEPS, Step};
use refusals::Refusal;

// Writes the plan. Answers how many steps it has. It goes by no `StepWriter`: its tests of room and overflow, which no turn here needs, take half as long again.
fn write_plan(n: u64, places: &mut [Step; MOST_STEPS]) -> usize
    requires positive { 1 ≤ n }
    requires bounded { n < 2 ^ 63 }
    ensures count { result ≡ length (left_to_right n) }
    ensures within { result ≤ 128 }
    ensures after { places.new ≡ left_to_right n ++ drop (length (left_to_right n)) places.old }
{
    let mut len = 0;
    let mut value = 1;
    for bit in (0..n.ilog2()).rev() {
        value += value;
        places[len] = Step {
            j: len as u16,
            k: len as u16,
            value,
        };
        len += 1;
        if (n >> bit) % 2 == 1 {
            value += 1;
            places[len] = Step {
                j: len as u16,
                k: 0,
                value,
            };
            len += 1;
        }
    }
    len
}

/// Plans n from its highest bit down, into the front of the table: for each bit below the highest, the last value is doubled, and then a_0 is added if the bit is 1.
/// Answers how many steps there are.
#[tactic(auto, using(crate::proofs::LeftRule::left_to_right_rule))]
pub fn left_to_right(n: u64, table: &mut [Step]) -> Result<usize, Refusal>
    ensures answer { result ≡ planned true n (left_to_right n) (length table.old) }
    ensures after { table.new ≡ written result (left_to_right n) table.old }
    ensures rule { LeftToRightRule }
    ensures within { IfOk result (λ l. l ≤ 128) }
    ensures count { IfOk result (λ l. l ≡ top n + count_ones n - 1) }
    ensures chain { IfOk result (λ l. Chain n (take l table.new)) }
    ensures highest { OnOk result ((2 ^ top n ≤ n) × (n < 2 * 2 ^ top n)) }
{
    check_request(true, n, table.len())?;
    let Some(places) = table.first_chunk_mut() else {
        unreachable!()
    };
    Ok(write_plan(n, places))
}

//! The tree method.
ghost use Rattle.std.specs.Prelude.{◌≡◌, ◌+◌, ◌-◌, ◌≤◌, ◌++◌, length, take, drop, IfOk, MatchResult, count_ones};
ghost use Rattle.plans.specs.Chain.{Chain};
ghost use Rattle.bits.specs.Bits.{top};
ghost use Rattle.planning.specs.Planning.{length_or, written};
ghost use Rattle.power_tree.specs.Growth.{grown_parents};
ghost use Rattle.power_tree.specs.Rule.{TreeRule};
ghost use Rattle.power_tree.specs.Tree.{tree_plan};
ghost use Rattle.tree_plans.specs.Method.{tree_request, Parents};

use crate::growing::{climb, grow};
use crate::writing::write_steps;
use planning::check_request;
use plans::{MOST_STEPS, Step};
use power_tree::{PARENTS, TOP_NUMBER};
use refusals::Refusal;

// Writes the plan of n: climbs from n to 1 by the parents of the tree, and writes the steps of that path.
fn write_plan(n: u16, parents: &[u16], places: &mut [Step; MOST_STEPS]) -> usize
    requires tree { parents.now ≡ grown_parents }
    requires positive { 1 ≤ n }
    requires within { n ≤ 1024 }
    ensures count { result ≡ length (tree_plan n) }
    ensures after { places.new ≡ tree_plan n ++ drop (length (tree_plan n)) places.old }
{
    write_steps(&climb(parents, n), places)
}

/// The tree method: plans n, up to 1,024, by its path in the power tree, which is grown over the caller's table of parents.
#[tactic(auto, using(power_tree::proofs::Rules::tree_rule))]
pub fn tree(n: u64, table: &mut [Step], parents: &mut [u16]) -> Result<usize, Refusal>
    ensures answer { result ≡ length_or (tree_request n (length table.old) (length parents.old)) (tree_plan n) }
    ensures after { table.new ≡ written result (tree_plan n) table.old }
    ensures rule { TreeRule }
    ensures parents { MatchResult result (λ _. Parents parents.old parents.new) (λ _. parents.new ≡ parents.old) }
    ensures within { IfOk result (λ len. len ≤ 128) }
    ensures count { IfOk result (λ len. len ≤ top n + count_ones n - 1) }
    ensures chain { IfOk result (λ len. Chain n (take len table.new)) }
{
    check_request(n <= TOP_NUMBER, n, table.len())?;
    let Some(places) = table.first_chunk_mut() else {
        unreachable!()
    };
    let Some(front) = parents.first_chunk_mut::<PARENTS>() else {
        return Err(Refusal::TableShort(PARENTS as u64));
    };
    grow(front);
    Ok(write_plan(n as u16, front, places))
}

//! The steps of a path of the tree.
ghost use Rattle.std.specs.Prelude.{◌≡◌, ◌<◌, ◌≤◌, length};
ghost use Rattle.std.proofs.lemmas.List.Edits.{sets};
ghost use Rattle.power_tree.specs.Tree.{summand_in, steps_of};

use plans::{MOST_STEPS, Step};

// On a path from u down to 1, the place of the number that makes x with u, counted from 0 at 1.
fn summand_place(path: &[u16], u: u16, x: u16) -> usize
    ensures within { result ≤ length path.now }
    ensures place { result ≡ summand_in u x path.now }
{
    let makes_x = |a: &u16| usize::from(u) + usize::from(*a) == usize::from(x);
    let Some(from_top) = path.iter().position(makes_x) else {
        return 0;
    };
    path.len() - 1 - from_top
}

// Writes the steps of a path down to 1 into the first places: those of the path below its first number, and then the step to that number.
// Answers how many they are.
pub(crate) fn write_steps(path: &[u16], places: &mut [Step; MOST_STEPS]) -> usize
    requires short { length path.now ≤ 128 }
    ensures within { result < 128 }
    ensures count { result ≡ length (steps_of path.now) }
    ensures after { places.new ≡ sets places.old 0 (steps_of path.now) }
{
    let [x, below @ ..] = path else {
        return 0;
    };
    let [u, ..] = below else {
        return 0;
    };
    let at = write_steps(below, places);
    let j = below.len() - 1;
    let k = summand_place(below, *u, *x);
    places[at] = Step {
        j: j as u16,
        k: k as u16,
        value: u64::from(*x),
    };
    at + 1
}

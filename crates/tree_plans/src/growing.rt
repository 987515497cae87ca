//! The power tree, grown over a table that has the parent of each number at the number's own place.
ghost use Rattle.std.specs.Prelude.{◌≡◌, ◌-◌, ◌≤◌, [], ◌∷◌, length, replicate};
ghost use Rattle.power_tree.specs.Tree.{turned};
ghost use Rattle.power_tree.specs.Growth.{growth, path_onto, hang, hang_all, turns, grown_parents};

use arrayvec::ArrayVec;
use power_tree::{LEVELS, PARENTS, TOP_NUMBER};

// How many numbers the tree has.
const NUMBERS: usize = TOP_NUMBER as usize;

// Follows the parents from u up to 1: the path from u down to 1.
pub(crate) fn climb(parents: &[u16], u: u16) -> ArrayVec<u16, LEVELS>
    ensures { turned result.items [] ≡ path_onto 19 parents.now u [] }
{
    let mut path = ArrayVec::new();
    let mut v = u;
    while v > 0 && !path.is_full() {
        path.push(v);
        v = parents.get(usize::from(v)).copied().unwrap_or(0);
    }
    path
}

// A tree under way.
#[derive(Drop)]
pub(crate) struct GrowingTree<'a> {
    // The parent of each number, at the number's own place; 0 for a number that has none.
    parents: &'a mut [u16; PARENTS],
    // The numbers of the tree, level after level.
    order: ArrayVec<u16, NUMBERS>,
}

impl<'a> GrowingTree<'a> {
    ghost use Rattle.tree_plans.specs.Growing.{tree_of};

    // The tree of one level, which is 1.
    fn first(parents: &'a mut [u16; PARENTS]) -> GrowingTree<'a>
        ensures same_table { result.parents.ghost_name ≡ parents.entry.ghost_name }
        ensures tree { tree_of result ≡ growth (replicate 1025 0) (1 ∷ []) }
    {
        *parents = [0; PARENTS];
        let mut order = ArrayVec::new();
        order.push(1);
        GrowingTree { parents, order }
    }

    // Makes u + a a child of u, unless it has a parent.
    fn hang(&mut self, u: u16, a: u16)
        requires room { length (hang u (tree_of self.old) a).order ≤ 1024 }
        ensures same_table { self.new.parents.ghost_name ≡ self.old.parents.ghost_name }
        ensures tree { tree_of self.new ≡ hang u (tree_of self.old) a }
    {
        let c = usize::from(u) + usize::from(a);
        if self.parents.get(c).copied() == Some(0) {
            self.parents[c] = u;
            self.order.push(c as u16);
        }
    }

    // Gives u its children: its sums with the numbers of its path, from 1 on.
    fn hang_all(&mut self, u: u16)
        requires room { length (hang_all u (tree_of self.old) (path_onto 19 (tree_of self.old).parents u [])).order ≤ 1024 }
        ensures same_table { self.new.parents.ghost_name ≡ self.old.parents.ghost_name }
        ensures tree { tree_of self.new ≡ hang_all u (tree_of self.old) (path_onto 19 (tree_of self.old).parents u []) }
    {
        for a in climb(self.parents, u).iter().rev() {
            self.hang(u, *a);
        }
    }

    // Gives each number of the last level its children, from the left. The level begins at the place `from`.
    fn grow_level(&mut self, from: usize)
        requires level { from ≤ length (tree_of self.old).order }
        requires room { length (turns (length (tree_of self.old).order - from) from (tree_of self.old)).order ≤ 1024 }
        ensures same_table { self.new.parents.ghost_name ≡ self.old.parents.ghost_name }
        ensures tree { tree_of self.new ≡ turns (length (tree_of self.old).order - from) from (tree_of self.old) }
    {
        for k in from..self.order.len() {
            let u = self.order[k];
            self.hang_all(u);
        }
    }
}

// Grows the whole tree, level by level.
pub(crate) fn grow(parents: &mut [u16; PARENTS])
    ensures { parents.new ≡ grown_parents }
{
    let mut tree = GrowingTree::first(parents);
    let mut from = 0;
    for _level in 1..LEVELS {
        let to = tree.order.len();
        tree.grow_level(from);
        from = to;
    }
}

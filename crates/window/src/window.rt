//! Some of the cells of a unit.
ghost use Rattle.std.specs.Prelude.{◌≡◌, ◌+◌, ◌<◌, length, IfOk, Ok};
ghost use Rattle.refusals.specs.Faults.{settle, Unchanged};
ghost use Rattle.units.specs.Units.{SameShape, load_fault, loaded, load_answer, load_after, reading, multiply_fault, multiplied, multiply_answer, multiply_after};
ghost use Rattle.window.specs.Windows.{windowed};
ghost use Rattle.std.proofs.Common.{rules};
ghost use Rattle.window.specs.WindowsLemmas as Windows;
ghost use Rattle.window.specs.WindowsLemmas.{win_native};

use kinds::Kind;
use refusals::Refusal;
use units::{Unit, check_cell};

/// A unit whose cells are those of the one below from number `from` on, at most `size` of them, perhaps none.
/// It keeps no records, and its refusals name its own cells.
#[derive(Drop)]
pub struct Window<U: Unit> {
    below: U,
    from: u8,
    size: u8,
}

impl<U: Unit> Window<U> {
    /// Puts a window on a unit.
    pub fn new(below: U, from: u8, size: u8) -> Self
        ensures below { result.below ≡ below }
        ensures from { result.from ≡ from }
        ensures size { result.size ≡ size }
    {
        Window { below, from, size }
    }

    /// Takes the window off, and hands back the unit below.
    pub fn take_off(self) -> U
        ensures below { result ≡ self.below }
    {
        let Window { below, .. } = self;
        below
    }

    // The number that a cell has in the unit below.
    fn place(&self, cell: u8) -> u8
        requires { cell < length (⟦<Self as Unit>⟧.state self.now).cells }
        ensures value { result ≡ self.now.from + cell }
    {
        self.from + cell
    }
}

impl<U: Unit> Kind for Window<U> {
    type Value = U::Value;

    ghost kind = { λ q. U.kind q.below };

    ghost closed = { λ q. U.closed q.below };

    ghost assoc = { λ q. U.assoc q.below };

    fn is_native(&self, v: U::Value) -> bool {
        self.below.is_native(v)
    }

    fn product(&self, a: U::Value, b: U::Value) -> Option<U::Value> {
        self.below.product(a, b)
    }
}

impl<U: Unit> Unit for Window<U> {
    ghost state = { λ q. windowed q.from q.size (U.state q.below) };

    ghost few = { λ u. Windows.few (U.state u.below) u.from u.size (U.few u.below) };

    ghost native = { λ u. win_native (U.state u.below) u.from u.size (U.kind u.below) (U.native u.below) };

    fn cells(&self) -> u8 {
        self.below.cells().saturating_sub(self.from).min(self.size)
    }

    fn allowance(&self) -> u64 {
        self.below.allowance()
    }

    fn load(&mut self, cell: u8, v: U::Value) -> Result<(), Refusal>
        ensures value { result ≡ load_answer (U.kind self.old.below) (⟦<Self as Unit>⟧.state self.old) cell v }
        ensures after { ⟦<Self as Unit>⟧.state self.new ≡ load_after (U.kind self.old.below) (⟦<Self as Unit>⟧.state self.old) cell v }
        ensures same { U.kind self.new.below ≡ U.kind self.old.below }
        ensures shape { SameShape (⟦<Self as Unit>⟧.state self.old) (⟦<Self as Unit>⟧.state self.new) }
        ensures below { let q = self.old in let m = U.kind q.below in let s = U.state q.below in U.state self.new.below ≡ settle (load_fault m (⟦<Self as Unit>⟧.state q) cell v) s (loaded s (q.from + cell) v) }
        ensures from { self.new.from ≡ self.old.from }
        ensures size { self.new.size ≡ self.old.size }
        ensures refused { Unchanged result self.old self.new }
    {
        self.check_load(cell, v)?;
        let place = self.place(cell);
        self.below.load(place, v)
    }

    // In line, since the check of a multiplication reads twice.
    #[inline(always)]
    fn read(&self, cell: u8) -> Result<U::Value, Refusal>
        ensures value { result ≡ reading (⟦<Self as Unit>⟧.state self.now) cell }
        ensures below { let q = self.now in IfOk result (λ v. reading (U.state q.below) (q.from + cell) ≡ Ok v) }
    {
        check_cell(self.cells(), cell)?;
        let place = self.place(cell);
        self.below
            .read(place)
            .map_err(|_| Refusal::CellEmpty(u64::from(cell)))
    }

    fn multiply(&mut self, to: u8, a: u8, b: u8) -> Result<(), Refusal>
        ensures value { result ≡ multiply_answer (⟦<Self as Unit>⟧.state self.old) to a b }
        ensures after { ⟦<Self as Unit>⟧.state self.new ≡ multiply_after (U.kind self.old.below) (⟦<Self as Unit>⟧.state self.old) to a b }
        ensures same { U.kind self.new.below ≡ U.kind self.old.below }
        ensures shape { SameShape (⟦<Self as Unit>⟧.state self.old) (⟦<Self as Unit>⟧.state self.new) }
        ensures below { let q = self.old in let m = U.kind q.below in let s = U.state q.below in U.state self.new.below ≡ settle (multiply_fault (⟦<Self as Unit>⟧.state q) to a b) s (multiplied m s (q.from + to) (q.from + a) (q.from + b)) }
        ensures from { self.new.from ≡ self.old.from }
        ensures size { self.new.size ≡ self.old.size }
        ensures refused { Unchanged result self.old self.new }
    {
        self.check_multiply(to, a, b)?;
        let target = self.place(to);
        let left = self.place(a);
        let right = self.place(b);
        self.below.multiply(target, left, right)
    }
}

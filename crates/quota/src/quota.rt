//! A limit on the multiplications that reach a unit.
ghost use Rattle.std.specs.Prelude.{◌≡◌, ◌+◌, ◌^◌, ◌<◌, ◌≤◌};
ghost use Rattle.refusals.specs.Faults.{settle, Unchanged};
ghost use Rattle.units.specs.Units.{SameShape, load_answer, load_after, reading, multiply_fault, multiplied, multiply_answer, multiply_after};
ghost use Rattle.quota.specs.Quotas.{under_quota};
ghost use Rattle.std.proofs.Common.{rules, arith};

use kinds::Kind;
use refusals::Refusal;
use units::Unit;

/// A unit that lets at most `limit` multiplications through to the one below.
#[derive(Drop)]
pub struct Quota<U: Unit> {
    below: U,
    limit: u64,
    used: u64,
    ghost within: { used ≤ limit },
    ghost bounded: { limit < 2 ^ 64 },
}

impl<U: Unit> Quota<U> {
    /// Puts a quota on a unit.
    pub fn new(below: U, limit: u64) -> Self
        ensures below { result.below ≡ below }
        ensures limit { result.limit ≡ limit }
        ensures used { result.used ≡ 0 }
    {
        Quota {
            below,
            limit,
            used: 0,
        }
    }

    /// Takes the quota off, and hands back the unit below.
    pub fn take_off(self) -> U
        ensures below { result ≡ self.below }
    {
        let Quota { below, .. } = self;
        below
    }
}

impl<U: Unit> Kind for Quota<U> {
    type Value = U::Value;

    ghost kind = { λ q. U.kind q.below };

    ghost closed = { λ q. U.closed q.below };

    ghost assoc = { λ q. U.assoc q.below };

    fn is_native(&self, v: U::Value) -> bool {
        self.below.is_native(v)
    }

    fn product(&self, a: U::Value, b: U::Value) -> Option<U::Value> {
        self.below.product(a, b)
    }
}

impl<U: Unit> Unit for Quota<U> {
    ghost state = { λ q. under_quota q.limit q.used (U.state q.below) };

    ghost few = { λ q. U.few q.below };

    ghost native = { λ q. U.native q.below };

    fn cells(&self) -> u8 {
        self.below.cells()
    }

    fn allowance(&self) -> u64 {
        self.below.allowance().min(self.limit - self.used)
    }

    fn load(&mut self, cell: u8, v: U::Value) -> Result<(), Refusal>
        ensures value { result ≡ load_answer (U.kind self.old.below) (⟦<Self as Unit>⟧.state self.old) cell v }
        ensures after { ⟦<Self as Unit>⟧.state self.new ≡ load_after (U.kind self.old.below) (⟦<Self as Unit>⟧.state self.old) cell v }
        ensures same { U.kind self.new.below ≡ U.kind self.old.below }
        ensures shape { SameShape (⟦<Self as Unit>⟧.state self.old) (⟦<Self as Unit>⟧.state self.new) }
        ensures below { let u = self.old.below in U.state self.new.below ≡ load_after (U.kind u) (U.state u) cell v }
        ensures used { self.new.used ≡ self.old.used }
        ensures limit { self.new.limit ≡ self.old.limit }
        ensures refused { Unchanged result self.old self.new }
    {
        self.below.load(cell, v)
    }

    // In line, since the check of a multiplication reads twice.
    #[inline(always)]
    fn read(&self, cell: u8) -> Result<U::Value, Refusal>
        ensures value { result ≡ reading (⟦<Self as Unit>⟧.state self.now) cell }
        ensures below { result ≡ reading (U.state self.now.below) cell }
    {
        self.below.read(cell)
    }

    fn multiply(&mut self, to: u8, a: u8, b: u8) -> Result<(), Refusal>
        ensures value { result ≡ multiply_answer (⟦<Self as Unit>⟧.state self.old) to a b }
        ensures after { ⟦<Self as Unit>⟧.state self.new ≡ multiply_after (U.kind self.old.below) (⟦<Self as Unit>⟧.state self.old) to a b }
        ensures same { U.kind self.new.below ≡ U.kind self.old.below }
        ensures shape { SameShape (⟦<Self as Unit>⟧.state self.old) (⟦<Self as Unit>⟧.state self.new) }
        ensures below { let q = self.old in let s = U.state q.below in U.state self.new.below ≡ settle (multiply_fault (⟦<Self as Unit>⟧.state q) to a b) s (multiplied (U.kind q.below) s to a b) }
        ensures used { self.new.used ≡ settle (multiply_fault (⟦<Self as Unit>⟧.state self.old) to a b) self.old.used (self.old.used + 1) }
        ensures limit { self.new.limit ≡ self.old.limit }
        ensures refused { Unchanged result self.old self.new }
    {
        self.check_multiply(to, a, b)?;
        self.below.multiply(to, a, b)?;
        self.used += 1;
        Ok(())
    }
}

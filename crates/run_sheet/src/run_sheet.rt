//! A record of each multiplication that reaches a unit.
ghost use Rattle.std.specs.Prelude.{◌≡◌, ◌≤◌, [], length};
ghost use Rattle.refusals.specs.Faults.{settle, Unchanged};
ghost use Rattle.units.specs.Units.{SameShape, load_answer, load_after, reading, multiply_fault, multiplied, multiply_answer, multiply_after};
ghost use Rattle.run_sheet.specs.Sheets.{sheeted, numbered};
ghost use Rattle.std.proofs.Common.{rules, arith};

use arrayvec::ArrayVec;
use kinds::Kind;
use refusals::Refusal;
use units::{Record, Unit};

/// The most records that a run sheet stores.
const MOST_RECORDS: usize = 1024;

/// A unit that stores a record of each multiplication that it lets through to the one below, 1,024 at most.
#[derive(Drop)]
pub struct RunSheet<U: Unit> {
    below: U,
    records: ArrayVec<Record, MOST_RECORDS>,
}

impl<U: Unit> RunSheet<U> {
    /// Puts an empty run sheet on a unit.
    pub fn new(below: U) -> Self
        ensures below { result.below ≡ below }
        ensures records { result.records.items ≡ [] }
    {
        RunSheet {
            below,
            records: ArrayVec::new(),
        }
    }

    /// Takes the run sheet off, and hands back the unit below.
    pub fn take_off(self) -> U
        ensures below { result ≡ self.below }
    {
        let RunSheet { below, .. } = self;
        below
    }

    /// The records, the oldest first.
    pub fn records(&self) -> &[Record]
        ensures value { result.now ≡ self.now.records.items }
        ensures few { length result.now ≤ 1024 }
    {
        self.records.as_slice()
    }

    /// How many records are stored.
    pub fn len(&self) -> usize
        ensures value { result ≡ length self.now.records.items }
        ensures few { result ≤ 1024 }
    {
        self.records.len()
    }

    /// The record of a number, counted from 1, if there is one.
    pub fn record(&self, number: usize) -> Option<Record>
        ensures value { result ≡ numbered self.now.records.items number }
    {
        let index = number.checked_sub(1)?;
        self.records.get(index).copied()
    }
}

impl<U: Unit> Kind for RunSheet<U> {
    type Value = U::Value;

    ghost kind = { λ q. U.kind q.below };

    ghost closed = { λ q. U.closed q.below };

    ghost assoc = { λ q. U.assoc q.below };

    fn is_native(&self, v: U::Value) -> bool {
        self.below.is_native(v)
    }

    fn product(&self, a: U::Value, b: U::Value) -> Option<U::Value> {
        self.below.product(a, b)
    }
}

impl<U: Unit> Unit for RunSheet<U> {
    ghost state = { λ q. sheeted q.records.items (U.state q.below) };

    ghost few = { λ q. U.few q.below };

    ghost native = { λ q. U.native q.below };

    fn cells(&self) -> u8 {
        self.below.cells()
    }

    fn allowance(&self) -> u64 {
        let room = self.records.remaining_capacity() as u64;
        self.below.allowance().min(room)
    }

    fn load(&mut self, cell: u8, v: U::Value) -> Result<(), Refusal>
        ensures value { result ≡ load_answer (U.kind self.old.below) (⟦<Self as Unit>⟧.state self.old) cell v }
        ensures after { ⟦<Self as Unit>⟧.state self.new ≡ load_after (U.kind self.old.below) (⟦<Self as Unit>⟧.state self.old) cell v }
        ensures same { U.kind self.new.below ≡ U.kind self.old.below }
        ensures shape { SameShape (⟦<Self as Unit>⟧.state self.old) (⟦<Self as Unit>⟧.state self.new) }
        ensures below { let u = self.old.below in U.state self.new.below ≡ load_after (U.kind u) (U.state u) cell v }
        ensures refused { Unchanged result self.old self.new }
    {
        self.below.load(cell, v)
    }

    // In line, since the check of a multiplication reads twice.
    #[inline(always)]
    fn read(&self, cell: u8) -> Result<U::Value, Refusal>
        ensures value { result ≡ reading (⟦<Self as Unit>⟧.state self.now) cell }
        ensures below { result ≡ reading (U.state self.now.below) cell }
    {
        self.below.read(cell)
    }

    fn multiply(&mut self, to: u8, a: u8, b: u8) -> Result<(), Refusal>
        ensures value { result ≡ multiply_answer (⟦<Self as Unit>⟧.state self.old) to a b }
        ensures after { ⟦<Self as Unit>⟧.state self.new ≡ multiply_after (U.kind self.old.below) (⟦<Self as Unit>⟧.state self.old) to a b }
        ensures same { U.kind self.new.below ≡ U.kind self.old.below }
        ensures shape { SameShape (⟦<Self as Unit>⟧.state self.old) (⟦<Self as Unit>⟧.state self.new) }
        ensures below { let q = self.old in let s = U.state q.below in U.state self.new.below ≡ settle (multiply_fault (⟦<Self as Unit>⟧.state q) to a b) s (multiplied (U.kind q.below) s to a b) }
        ensures refused { Unchanged result self.old self.new }
    {
        self.check_multiply(to, a, b)?;
        self.below.multiply(to, a, b)?;
        self.records.push(Record { to, a, b });
        Ok(())
    }
}

//! A unit of another make: counts in as many cells as it is made with, 0 to 255, and a record of each multiplication.
ghost use Rattle.std.specs.Prelude.{◌≡◌, ◌+◌, ◌<◌, ◌≤◌, length, None, slice_index_or};
ghost use Rattle.kinds.specs.Counting.{counting};
ghost use Rattle.units.specs.Units.{AllNative, both};
ghost use Rattle.pile_cases.specs.Ledgers.{ledgered, empty_ledger};
ghost use Rattle.std.proofs.Common.{rules, arith};

use crate::model::MOST_KEPT;
use arrayvec::ArrayVec;
use kinds::{Count, Counts, Kind};
use refusals::Refusal;
use units::{Record, Unit};

// The most cells of a ledger.
const MOST_CELLS: usize = 255;

/// Counts in at most 255 cells, and a record of each multiplication, 2,048 at most.
#[derive(Drop)]
pub(crate) struct Ledger {
    places: ArrayVec<Option<Count>, MOST_CELLS>,
    left: u64,
    records: ArrayVec<Record, MOST_KEPT>,
    ghost native: { AllNative counting places.items },
    ghost room: { length records.items + left ≤ 2048 },
    ghost few: { length places.items ≤ 255 },
}

impl Ledger {
    /// An empty ledger of so many cells; its allowance is at most 2,048.
    pub(crate) fn new(cells: u8, allowance: u64) -> Self
        ensures empty { ledgered result.places.items result.left result.records.items ≡ empty_ledger cells allowance }
    {
        let mut places = ArrayVec::from([None; MOST_CELLS]);
        places.truncate(usize::from(cells));
        Ledger {
            places,
            left: allowance.min(MOST_KEPT as u64),
            records: ArrayVec::new(),
        }
    }

    /// The records, the oldest first.
    pub(crate) fn records(&self) -> &[Record]
        ensures { result.now ≡ self.now.records.items }
    {
        self.records.as_slice()
    }

    // The product of what two cells hold, if both hold a value.
    fn product_of_cells(&self, a: u8, b: u8) -> Option<Count>
        requires { (a < length self.now.places.items) × (b < length self.now.places.items) }
        ensures { result ≡ both counting.times (slice_index_or self.now.places.items a None) (slice_index_or self.now.places.items b None) }
    {
        Counts.product(self.places[usize::from(a)]?, self.places[usize::from(b)]?)
    }
}

impl Kind for Ledger {
    type Value = Count;

    ghost kind = { λ _. counting };

    ghost closed = { Prim.search rules };

    ghost assoc = { Prim.search rules };

    fn is_native(&self, v: Count) -> bool {
        Counts.is_native(v)
    }

    fn product(&self, a: Count, b: Count) -> Option<Count> {
        Counts.product(a, b)
    }
}

impl Unit for Ledger {
    ghost state = { λ u. ledgered u.places.items u.left u.records.items };

    ghost few = { λ u. u.few };

    ghost native = { λ u. u.native };

    fn cells(&self) -> u8 {
        self.places.len() as u8
    }

    fn allowance(&self) -> u64 {
        self.left
    }

    fn load(&mut self, cell: u8, v: Count) -> Result<(), Refusal> {
        self.check_load(cell, v)?;
        self.places[usize::from(cell)] = Some(v);
        Ok(())
    }

    fn read(&self, cell: u8) -> Result<Count, Refusal> {
        let held = self
            .places
            .get(usize::from(cell))
            .ok_or(Refusal::NoSuchCell(u64::from(cell)))?;
        held.ok_or(Refusal::CellEmpty(u64::from(cell)))
    }

    fn multiply(&mut self, to: u8, a: u8, b: u8) -> Result<(), Refusal> {
        self.check_multiply(to, a, b)?;
        self.places[usize::from(to)] = self.product_of_cells(a, b);
        self.records.push(Record { to, a, b });
        self.left -= 1;
        Ok(())
    }
}

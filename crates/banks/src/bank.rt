//! A bank of the values of one kind.
ghost use Rattle.std.specs.Prelude.{◌≡◌, ◌<◌, length, None, slice_index_or};
ghost use Rattle.units.specs.Units.{AllNative, both};
ghost use Rattle.banks.specs.Banks.{bank, fresh};
ghost use Rattle.std.proofs.Common.{rules, arith};

use kinds::Kind;
use refusals::Refusal;
use units::Unit;

// How many cells a bank has.
const CELLS: usize = 32;

/// 32 cells that hold native values of a kind, and an allowance. It keeps no records.
#[derive(Drop)]
pub struct Bank<K: Kind> {
    rule: K,
    places: [Option<K::Value>; CELLS],
    left: u64,
    ghost full: { length places ≡ 32 },
    ghost native: { AllNative (K.kind rule) places },
}

impl<K: Kind> Bank<K> {
    /// An empty bank of this kind, with this allowance.
    pub fn of(rule: K, allowance: u64) -> Self
        ensures empty { bank result.places result.left ≡ fresh allowance }
        ensures rule { result.rule ≡ rule }
    {
        Bank {
            rule,
            places: [None; CELLS],
            left: allowance,
        }
    }

    // The product of what two cells hold, if both hold a value.
    fn product_of_cells(&self, a: u8, b: u8) -> Option<K::Value>
        requires { (a < 32) × (b < 32) }
        ensures { result ≡ both (K.kind self.now.rule).times (slice_index_or self.now.places a None) (slice_index_or self.now.places b None) }
    {
        self.rule
            .product(self.places[usize::from(a)]?, self.places[usize::from(b)]?)
    }
}

impl<K: Kind> Kind for Bank<K> {
    type Value = K::Value;

    ghost kind = { λ b. K.kind b.rule };

    ghost closed = { λ b. K.closed b.rule };

    ghost assoc = { λ b. K.assoc b.rule };

    fn is_native(&self, v: K::Value) -> bool {
        self.rule.is_native(v)
    }

    fn product(&self, a: K::Value, b: K::Value) -> Option<K::Value> {
        self.rule.product(a, b)
    }
}

impl<K: Kind> Unit for Bank<K> {
    ghost state = { λ b. bank b.places b.left };

    ghost few = { Prim.search rules };

    ghost native = { λ b. b.native };

    fn cells(&self) -> u8 {
        CELLS as u8
    }

    fn allowance(&self) -> u64 {
        self.left
    }

    fn load(&mut self, cell: u8, v: K::Value) -> Result<(), Refusal> {
        self.check_load(cell, v)?;
        self.places[usize::from(cell)] = Some(v);
        Ok(())
    }

    fn read(&self, cell: u8) -> Result<K::Value, Refusal> {
        let held = self
            .places
            .get(usize::from(cell))
            .ok_or(Refusal::NoSuchCell(u64::from(cell)))?;
        held.ok_or(Refusal::CellEmpty(u64::from(cell)))
    }

    fn multiply(&mut self, to: u8, a: u8, b: u8) -> Result<(), Refusal> {
        self.check_multiply(to, a, b)?;
        self.places[usize::from(to)] = self.product_of_cells(a, b);
        self.left -= 1;
        Ok(())
    }
}

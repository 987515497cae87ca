//! The interface of a unit.
ghost use Rattle.std.specs.Prelude.{◌≡◌, ◌≤◌, length};
ghost use Rattle.refusals.specs.Faults.{verdict, Unchanged};
ghost use Rattle.units.specs.Units.{State, AllNative, SameShape, outside, load_answer, load_after, reading, multiply_answer, multiply_after};

use kinds::Kind;
use refusals::Refusal;

/// Refuses the number of a cell unless one of so many cells has it.
pub fn check_cell(cells: u8, cell: u8) -> Result<(), Refusal>
    ensures value { result ≡ verdict (outside cells cell) }
{
    if cell >= cells {
        return Err(Refusal::NoSuchCell(u64::from(cell)));
    }
    Ok(())
}

/// A unit: at most 255 cells that hold native values of its kind, an allowance of multiplications, and perhaps records of those made.
/// The kind, the number of cells and whether records are kept never change.
/// A refused call changes nothing, and an accepted one nothing but what it names.
pub trait Unit: Kind {
    ghost state: { Self → State Self.Value };

    /// How many cells there are.
    fn cells(&self) -> u8
        ensures value { result ≡ length (state self.now).cells };

    /// How many multiplications are left.
    fn allowance(&self) -> u64
        ensures value { result ≡ (state self.now).left };

    /// Puts a native value into a cell.
    fn load(&mut self, cell: u8, v: Self::Value) -> Result<(), Refusal>
        ensures value { result ≡ load_answer (Self.Kind.kind self.old) (state self.old) cell v }
        ensures after { state self.new ≡ load_after (Self.Kind.kind self.old) (state self.old) cell v }
        ensures same { Self.Kind.kind self.new ≡ Self.Kind.kind self.old }
        ensures shape { SameShape (state self.old) (state self.new) }
        ensures refused { Unchanged result self.old self.new };

    /// What a cell holds.
    fn read(&self, cell: u8) -> Result<Self::Value, Refusal>
        ensures value { result ≡ reading (state self.now) cell };

    /// Puts the product of cells `a` and `b` into cell `to`, which may be one of them, and lowers the allowance by one.
    fn multiply(&mut self, to: u8, a: u8, b: u8) -> Result<(), Refusal>
        ensures value { result ≡ multiply_answer (state self.old) to a b }
        ensures after { state self.new ≡ multiply_after (Self.Kind.kind self.old) (state self.old) to a b }
        ensures same { Self.Kind.kind self.new ≡ Self.Kind.kind self.old }
        ensures shape { SameShape (state self.old) (state self.new) }
        ensures refused { Unchanged result self.old self.new };

    /// What `load` would answer.
    fn check_load(&self, cell: u8, v: Self::Value) -> Result<(), Refusal>
        ensures value { result ≡ load_answer (Self.Kind.kind self.now) (state self.now) cell v }
    {
        check_cell(self.cells(), cell)?;
        if !self.is_native(v) {
            return Err(Refusal::NotNative);
        }
        Ok(())
    }

    /// What `multiply` would answer.
    fn check_multiply(&self, to: u8, a: u8, b: u8) -> Result<(), Refusal>
        ensures value { result ≡ multiply_answer (state self.now) to a b }
    {
        let cells = self.cells();
        check_cell(cells, to)?;
        check_cell(cells, a)?;
        check_cell(cells, b)?;
        self.read(a)?;
        self.read(b)?;
        if self.allowance() == 0 {
            return Err(Refusal::AllowanceSpent);
        }
        Ok(())
    }

    ghost few: { (u : Self) → length (state u).cells ≤ 255 };

    ghost native: { (u : Self) → AllNative (Self.Kind.kind u) (state u).cells };
}

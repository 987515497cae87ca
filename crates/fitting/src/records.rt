//! Records worked in sums.
ghost use Rattle.std.specs.Prelude.{◌≡◌, ℕ, ◌^◌, ◌<◌, ◌≤◌, ◌++◌, length, drop, slice_index, slice_set};
ghost use Rattle.run_laws.specs.Traces.{sums, one_in};

use plans::MOST_STEPS;
use units::Record;

// The cells of the bank that a plan is rehearsed on.
const REHEARSAL_CELLS: usize = 32;

// The number in a cell, 0 where there is no such cell.
fn number_in(cells: &[u64], cell: u8) -> u64
    ensures value { result ≡ slice_index cells.now cell }
{
    cells.get(usize::from(cell)).copied().unwrap_or(0)
}

// Puts a number into a cell, if there is such a cell.
fn put_number(cells: &mut [u64], cell: u8, number: u64)
    ensures after { cells.new ≡ slice_set cells.old cell number }
{
    let i = usize::from(cell);
    if i < cells.len() {
        cells[i] = number;
    }
}

// Works the records in sums, from 1 in the start cell, and writes the sums into the first places of the table.
pub(crate) fn work_records(records: &[Record], start: u8, out: &mut [u64; MOST_STEPS])
    requires few { length records.now ≤ 128 }
    requires small { (i : ℕ) → slice_index (sums (one_in 32 start) records.now) i < 2 ^ 63 }
    ensures after { out.new ≡ sums (one_in 32 start) records.now ++ drop (length records.now) out.old }
{
    let mut cells = [0u64; REHEARSAL_CELLS];
    put_number(&mut cells, start, 1);
    for (i, record) in records.iter().enumerate() {
        let sum = number_in(&cells, record.a) + number_in(&cells, record.b);
        put_number(&mut cells, record.to, sum);
        out[i] = sum;
    }
}

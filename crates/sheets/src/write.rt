//! The sheet of a plan.
ghost use Rattle.std.specs.Prelude.{◌≡◌, ℕ, ◌≤◌, length, take, IfOk, Ok};
ghost use Rattle.sheets.specs.Sheets.{wrote, written};
ghost use Rattle.sheets.specs.Reading.{read_sheet};

use crate::line::{LINE_BYTES, write_line};
use plans::Plan;
use refusals::Refusal;

/// Writes the plan's sheet into the first bytes of `out`, and answers how many those are. Where `out` is too short it stays as it was.
pub fn write_sheet(plan: &Plan<'_>, out: &mut [u8]) -> Result<usize, Refusal>
    ensures answer { result ≡ wrote plan.now.steps.now (length out.old) }
    ensures after { out.new ≡ written plan.now.steps.now out.old }
    ensures back { IfOk result (λ n. (m : ℕ) → length plan.now.steps.now ≤ m → read_sheet (take n out.new) m ≡ Ok plan.now.steps.now) }
{
    let steps = plan.steps();
    let size = LINE_BYTES * steps.len();
    if size > out.len() {
        return Err(Refusal::TableShort(size as u64));
    }
    for (i, step) in steps.iter().enumerate() {
        let from = LINE_BYTES * i;
        out[from..from + LINE_BYTES].copy_from_slice(&write_line(i + 1, step));
    }
    Ok(size)
}

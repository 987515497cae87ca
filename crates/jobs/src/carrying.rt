//! A job: one sheet carried through reading, admission and running.
ghost use Rattle.std.specs.Prelude.{◌≡◌, length};
ghost use Rattle.sheets.specs.Reading.{read_sheet, filled};
ghost use Rattle.refusals.specs.Faults.{Unchanged};
ghost use Rattle.jobs.specs.Jobs.{job_answer, job_plan, Jobbed};

use crate::job_refusal::{JobRefusal, at_stage};
use crate::stage::Stage;
use kinds::Kind;
use plans::{Plan, Step};
use refusals::Refusal;
use runs::{Raised, run};
use sheets::SheetReader;
use units::Unit;

/// Reads the sheet into the first places of the table, admits its steps as a plan of `n`, and raises the base by it on the unit.
pub fn job<U: Unit>(
    unit: &mut U,
    text: &[u8],
    n: u64,
    base: U::Value,
    table: &mut [Step],
) -> Result<Raised<U::Value>, JobRefusal>
    ensures answer { result ≡ job_answer (U.kind unit.old) (U.state unit.old) (read_sheet text.now (length table.old)) n base }
    ensures after { Jobbed (U.kind unit.old) (U.state unit.old) n base (job_plan (read_sheet text.now (length table.old)) n) (U.state unit.new) }
    ensures table { table.new ≡ filled (read_sheet text.now (length table.old)) table.old }
    ensures refused { Unchanged result unit.old unit.new }
    ensures same { U.kind unit.new ≡ U.kind unit.old }
{
    let mut reader = SheetReader::new(text);
    let count = at_stage(Stage::Reading, reader.read(table))?;
    let plan = at_stage(Stage::Admission, Plan::new(n, &table[..count]))?;
    at_stage(Stage::Running, run(unit, &plan, base))
}

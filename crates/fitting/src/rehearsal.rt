//! A plan run in whole numbers: counts from 1, on a bank of counts under a run sheet.
ghost use Rattle.std.specs.Prelude.{◌≡◌};
ghost use Rattle.refusals.specs.Faults.{verdict};
ghost use Rattle.fitting.specs.Fitting.{rehearsal_fault, rehearsed_in};

use crate::records::work_records;
use banks::CountsBank;
use kinds::Count;
use plans::{MOST_STEPS, Plan};
use refusals::Refusal;
use run_sheet::RunSheet;
use runs::run;

// Runs the plan from 1, whose cell is `start`, and writes the exponents that the run sheet's records give into the first places of the table.
pub(crate) fn rehearse(
    plan: &Plan<'_>,
    start: u8,
    exponents: &mut [u64; MOST_STEPS],
) -> Result<(), Refusal>
    requires { start ≡ 0 }
    ensures answer { result ≡ verdict (rehearsal_fault plan.now.steps.now) }
    ensures after { exponents.new ≡ rehearsed_in plan.now.steps.now exponents.old }
{
    let mut sheet = RunSheet::new(CountsBank::new(MOST_STEPS as u64));
    run(&mut sheet, plan, Count { value: 1 })?;
    work_records(sheet.records(), start, exponents);
    Ok(())
}

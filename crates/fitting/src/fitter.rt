//! A plan, and the plan of a sheet, fitted to a card.
ghost use Rattle.std.specs.Prelude.{◌≡◌};
ghost use Rattle.fitting.specs.Fitting.{fit_answer, FitsUnit, trimmed_in, PlacedIn, PlacedCells, exponents_in};
ghost use Rattle.refusals.specs.Faults.{Unchanged};
ghost use Rattle.sheets.specs.Reading.{read_sheet};
ghost use Rattle.jobs.specs.Jobs.{job_plan};
ghost use Rattle.fitting.specs.Sheets.{sheet_answer, FitsSheet, TablesAfter, CellsOf};

use crate::card::run_on_card;
use crate::fitted::{Fitted, measure};
use crate::rehearsal::rehearse;
use crate::tables::Tables;
use jobs::{JobRefusal, Stage, at_stage};
use kinds::Kind;
use placing::place::place;
use plans::{MOST_STEPS, MOST_VALUES, Plan, Step};
use refusals::Refusal;
use sheets::SheetReader;
use trimming::trim;
use units::Unit;

/// Trims the plan, places it, rehearses it in whole numbers, and raises the base by it on the unit.
/// The trimmed steps, the cells of their values, and the exponents that the rehearsal's run sheet gives go into the first places of the tables.
pub fn fit_plan<U: Unit>(
    unit: &mut U,
    plan: &Plan<'_>,
    base: U::Value,
    table: &mut [Step; MOST_STEPS],
    cells: &mut [u8; MOST_VALUES],
    exponents: &mut [u64; MOST_STEPS],
) -> Result<Fitted<U::Value>, Refusal>
    ensures answer { result ≡ fit_answer (U.kind unit.old) (U.state unit.old) plan.now.exponent plan.now.steps.now base }
    ensures after { FitsUnit (U.kind unit.old) (U.state unit.old) plan.now.exponent plan.now.steps.now base result (U.state unit.new) }
    ensures table { table.new ≡ trimmed_in plan.now.steps.now table.old }
    ensures cells { PlacedIn plan.now.steps.now cells.old cells.new }
    ensures named { PlacedCells plan.now.steps.now cells.old cells.new }
    ensures exponents { exponents.new ≡ exponents_in plan.now.steps.now exponents.old }
    ensures refused { Unchanged result unit.old unit.new }
    ensures same { U.kind unit.new ≡ U.kind unit.old }
{
    let length = trim(plan, table)?;
    let short = Plan::new(plan.exponent(), &table[..length])?;
    let size = measure(&short);
    place(&short, size.need, cells)?;
    rehearse(&short, cells[0], exponents)?;
    let power = run_on_card(unit, &short, base)?;
    Ok(Fitted {
        plan: measure(plan),
        trimmed: size,
        power,
        left: unit.allowance(),
    })
}

/// Reads the sheet, admits its steps as a plan of `n`, and fits that plan to the unit.
pub fn fit<U: Unit>(
    unit: &mut U,
    text: &[u8],
    n: u64,
    base: U::Value,
    tables: &mut Tables,
) -> Result<Fitted<U::Value>, JobRefusal>
    ensures answer { result ≡ sheet_answer (U.kind unit.old) (U.state unit.old) (read_sheet text.now 128) n base }
    ensures after { FitsSheet (U.kind unit.old) (U.state unit.old) n base (job_plan (read_sheet text.now 128) n) (U.state unit.new) }
    ensures tables { TablesAfter (read_sheet text.now 128) n tables.old tables.new }
    ensures named { CellsOf (job_plan (read_sheet text.now 128) n) tables.old tables.new }
    ensures refused { Unchanged result unit.old unit.new }
    ensures same { U.kind unit.new ≡ U.kind unit.old }
{
    let mut reader = SheetReader::new(text);
    let count = at_stage(Stage::Reading, reader.read(&mut tables.steps))?;
    let plan = at_stage(Stage::Admission, Plan::new(n, &tables.steps[..count]))?;
    let fitted = fit_plan(
        unit,
        &plan,
        base,
        &mut tables.trimmed,
        &mut tables.cells,
        &mut tables.exponents,
    );
    at_stage(Stage::Running, fitted)
}

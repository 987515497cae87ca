//! What the plan program answers.
ghost use Rattle.std.specs.Prelude.{◌≡◌, ◌^◌, ◌<◌, ◌≤◌, ◌++◌, length, take, drop, IfOk};
ghost use Rattle.plans.specs.Chain.{Chain};
ghost use Rattle.refusals.specs.Codes.{code};
ghost use Rattle.sheets.specs.Reading.{counted};
ghost use Rattle.methods.specs.Requests.{plan_for, steps_or, asked, sheet_length, sheet_over, refusal_line, room_answer, responded};

use crate::method::Method;
use crate::request::{PlanRequest, parse_request};
use fields::write_field;
use planning::check_exponent;
use plans::{MOST_STEPS, NO_STEP, Plan, Step};
use power_tree::PARENTS;
use refusals::Refusal;
use sheets::write_sheet;

/// The most bytes that an answer has: those of a sheet of 128 lines.
pub const MOST_BYTES: usize = 4096;

// Plans what is asked; the first places of the table then hold the plan, and their number is the answer.
fn plan_request(
    request: PlanRequest,
    table: &mut [Step],
    parents: &mut [u16],
) -> Result<usize, Refusal>
    requires places { 128 ≤ length table.old }
    requires parents { 1025 ≤ length parents.old }
    ensures answer { result ≡ counted (plan_for request) }
    ensures front { IfOk result (λ l. take l table.new ≡ steps_or (plan_for request)) }
    ensures within { IfOk result (λ l. l ≤ 128) }
    ensures chain { IfOk result (λ l. Chain request.exponent (take l table.new)) }
{
    check_exponent(request.exponent)?;
    let method = Method::numbered(request.method, request.width).ok_or(Refusal::Method)?;
    method.plan(request.exponent, table, parents)
}

// Writes the line of a refusal.
fn write_refusal(refusal: Refusal, out: &mut [u8]) -> usize
    requires room { 9 ≤ length out.old }
    requires number { (code refusal).number < 10 ^ 4 }
    requires place { (code refusal).place < 10 ^ 4 }
    ensures count { result ≡ length (refusal_line refusal) }
    ensures after { out.new ≡ refusal_line refusal ++ drop (length (refusal_line refusal)) out.old }
{
    write_field(&mut out[0..4], u64::from(refusal.number()));
    write_field(&mut out[4..8], refusal.place());
    out[8] = b'\n';
    9
}

// Writes the sheet of the plan that the line asks for.
fn write_plan(line: &[u8], out: &mut [u8]) -> Result<usize, Refusal>
    requires room { 4096 ≤ length out.old }
    ensures answer { result ≡ sheet_length (asked line.now) }
    ensures after { out.new ≡ sheet_over (asked line.now) out.old }
{
    let request = parse_request(line)?;
    let mut table = [NO_STEP; MOST_STEPS];
    let mut parents = [0u16; PARENTS];
    let length = plan_request(request, &mut table, &mut parents)?;
    let plan = Plan::new(request.exponent, &table[..length])?;
    write_sheet(&plan, out)
}

/// Writes what the plan program prints for its input into the first bytes of `out`, and answers how many those are.
pub fn respond(line: &[u8], out: &mut [u8]) -> Result<usize, Refusal>
    ensures answer { result ≡ room_answer line.now (length out.old) }
    ensures after { out.new ≡ responded line.now out.old }
{
    if out.len() < MOST_BYTES {
        return Err(Refusal::TableShort(MOST_BYTES as u64));
    }
    match write_plan(line, out) {
        Ok(length) => Ok(length),
        Err(refusal) => Ok(write_refusal(refusal, out)),
    }
}

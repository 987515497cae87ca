//! What the program prints.
use crate::cards::CardError;
use crate::request::{CardKind, Request};
use fitting::{Fitted, Size, Tables, describe};
use plans::Step;
use std::io;

/// How the program is called.
pub(crate) fn print_usage(rt: &HostRuntime) -> io::Result<()> {
    println!(rt; "usage: fit SHEET-FILE EXPONENT KIND MODULUS CELLS ALLOWANCE BASE")?;
    println!(rt;
        "Trims the plan of the sheet, places it, rehearses it in whole numbers, and runs it on a card."
    )?;
    println!(rt; "KIND       counts, residues or polynomials")?;
    println!(rt;
        "MODULUS    0 for counts, 2 to 4294967295 for residues, at least 2 for polynomials"
    )?;
    println!(rt; "CELLS      the card's cells, at most 32")?;
    println!(rt; "ALLOWANCE  the multiplications that the card may make")?;
    println!(rt;
        "BASE       what is raised; a polynomial is the number whose bit i is the coefficient of t^i"
    )
}

fn print_card(rt: &HostRuntime, request: &Request) -> io::Result<()> {
    let Request {
        exponent,
        kind,
        modulus,
        cells,
        allowance,
        base,
    } = *request;
    println!(rt; "exponent         {exponent}")?;
    print!(rt; "card             {kind}")?;
    if kind != CardKind::Counts {
        print!(rt; " modulo {modulus}")?;
    }
    println!(rt; "; cells {cells}; allowance {allowance}")?;
    println!(rt; "base             {base}")
}

// The steps of the trimmed plan, and beside each value what the run sheet gives.
fn print_steps(rt: &HostRuntime, tables: &Tables, length: usize) -> io::Result<()> {
    println!(rt; "")?;
    println!(rt; "value    made from                exponent     in the run sheet   cell")?;
    let cell = tables.cells[0];
    println!(rt; "    0               {:>22}{:>28}", 1, cell)?;
    let rows = tables
        .trimmed
        .iter()
        .zip(&tables.exponents)
        .zip(&tables.cells[1..]);
    for (number, ((step, given), cell)) in (1u64..).zip(rows).take(length) {
        let Step { j, k, value } = *step;
        print!(rt; "{number:>5}    {j:>3} and {k:>3}{value:>22}")?;
        println!(rt; "{given:>21}{cell:>7}")?;
    }
    println!(rt; "")
}

// The first value whose exponent in the run sheet is not the plan's, if there is one.
fn first_difference(tables: &Tables, length: usize) -> Option<usize> {
    let mut rows = tables.trimmed.iter().zip(&tables.exponents).take(length);
    rows.position(|(step, given)| *given != step.value)
        .map(|i| i + 1)
}

fn print_found(rt: &HostRuntime, tables: &Tables, found: &Fitted<u64>) -> io::Result<()> {
    let Size { length, need } = found.plan;
    println!(rt; "plan             length {length}, need {need}")?;
    let Size { length, need } = found.trimmed;
    println!(rt; "trimmed plan     length {length}, need {need}")?;
    print_steps(rt, tables, length)?;
    match first_difference(tables, length) {
        None => println!(rt; "exponents        identical")?,
        Some(number) => println!(rt; "exponents        first different at value {number}")?,
    }
    println!(rt; "power            {}", found.power)?;
    println!(rt; "allowance left   {}", found.left)
}

fn print_refusal(rt: &HostRuntime, error: &CardError) -> io::Result<()> {
    let refusal = error.refusal();
    let number = refusal.number();
    let place = refusal.place();
    println!(rt; "refused          number {number}, place {place}, {error}")?;
    let words = describe(refusal);
    println!(rt; "                 {words}")
}

/// What came of a request.
pub(crate) fn print_report(
    rt: &HostRuntime,
    request: &Request,
    tables: &Tables,
    outcome: &Result<Fitted<u64>, CardError>,
) -> io::Result<()> {
    print_card(rt, request)?;
    match outcome {
        Ok(found) => print_found(rt, tables, found),
        Err(error) => print_refusal(rt, error),
    }
}

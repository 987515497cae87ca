//! The fitting program: fits the plan of a sheet to a card, and says what it did.
//! `request` has what the program is asked, `cards` the fitting on a card of each kind, `report` what is printed.
#![tactic(auto)]

mod cards;
mod report;
mod request;
#[cfg(test)]
mod tests;

use crate::cards::fit_to_card;
use crate::report::{print_report, print_usage};
use crate::request::Request;
use fitting::Tables;
use std::{env, fs};

fn main(rt: HostRuntime) -> anyhow::Result<()> {
    let args: Vec<String> = env::args(&rt)?.collect(rt.alloc())?;
    let [_, name, exponent, kind, modulus, cells, allowance, base] = args.as_slice() else {
        print_usage(&rt)?;
        return Ok(());
    };
    match Request::parse([exponent, kind, modulus, cells, allowance, base]) {
        Err(wrong) => println!(rt; "{wrong}")?,
        Ok(request) => match fs::read(&rt, name) {
            Err(_) => println!(rt; "SHEET-FILE cannot be read: {name}")?,
            Ok(text) => {
                let mut tables = Tables::new();
                let outcome = fit_to_card(&request, text.as_slice(), &mut tables);
                println!(rt; "sheet            {name}")?;
                print_report(&rt, &request, &tables, &outcome)?;
            }
        },
    }
    Ok(())
}

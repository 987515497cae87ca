//! Piles of the three layers in all orders over each bank, and over a unit of another make, driven by one table of calls, good and bad,
//! and compared, answer by answer and state by state, with a plain model of the rules.
//! `table` has the calls, `model` the rules, `driving` the comparison, `piles` the orders, `ledger` the unit of another make.
#![tactic(auto)]

mod driving;
mod ledger;
mod model;
mod piles;
mod table;

use banks::{CountsBank, RegisterBank, ResiduesBank};
use driving::{Tally, Trial};
use kinds::Residues;
use ledger::Ledger;
use model::{Layer, MOST_KEPT, Model, Setting};
use piles::drive_pile;
use plain_numbers::Rule;
use polynomials::Register;
use refusals::Refusal;
use std::{fmt, io};

// A setting of this allowance, limit, and window, and with so many multiplications before the calls.
const fn setting(allowance: u64, limit: u64, from: u8, size: u8, before: u16) -> Setting {
    Setting {
        allowance,
        limit,
        from,
        size,
        before,
    }
}

// The settings: plain; windows further on, of one cell, of two, of none, and beyond the cells; allowances, limits and places for records that are 0, 5 or 6.
fn settings() -> [Setting; 16] {
    [
        setting(5000, 4000, 0, 255, 0),
        setting(5000, 4000, 3, 10, 0),
        setting(5000, 4000, 31, 1, 0),
        setting(5000, 4000, 5, 2, 0),
        setting(5000, 4000, 5, 0, 0),
        setting(5000, 4000, 32, 7, 0),
        setting(5000, 4000, 255, 255, 0),
        setting(0, 4000, 2, 9, 0),
        setting(5, 4000, 2, 9, 0),
        setting(6, 4000, 2, 9, 0),
        setting(5000, 0, 1, 9, 0),
        setting(5000, 5, 1, 9, 0),
        setting(5000, 6, 1, 9, 0),
        setting(0xffff_ffff_ffff_ffff, 15, 1, 20, 0),
        setting(5000, 0xffff_ffff_ffff_ffff, 1, 20, 1018),
        setting(5000, 4000, 1, 20, 1019),
    ]
}

// What lies at the bottom of a pile: a bank of a kind, or a ledger of so many cells.
#[derive(Clone, Copy)]
enum Bottom {
    Bank(Rule),
    Ledger(u8),
}

impl fmt::Display for Bottom {
    fn fmt<W: fmt::Write>(&self, f: &mut fmt::Formatter<W>) -> fmt::Result {
        f.write_str(match self {
            Bottom::Bank(Rule::Sums) => "counts",
            Bottom::Bank(Rule::Residues(_)) => "residues",
            Bottom::Bank(Rule::Polynomials(_)) => "polynomials",
            Bottom::Ledger(_) => "ledger",
        })
    }
}

impl Bottom {
    fn rule(self) -> Rule {
        match self {
            Bottom::Bank(rule) => rule,
            Bottom::Ledger(_) => Rule::Sums,
        }
    }

    fn cells(self) -> usize {
        match self {
            Bottom::Bank(_) => 32,
            Bottom::Ledger(cells) => usize::from(cells),
        }
    }

    // The allowance that it is made with; a ledger has a place for each record.
    fn allowance(self, allowance: u64) -> u64 {
        match self {
            Bottom::Bank(_) => allowance,
            Bottom::Ledger(_) => allowance.min(MOST_KEPT as u64),
        }
    }

    // Drives the pile of the model over it; refused where there is no such kind.
    fn drive(self, trial: &mut Trial<'_>) -> Result<(), Refusal> {
        let allowance = trial.model.setting.allowance;
        match self {
            Bottom::Bank(Rule::Sums) => drive_pile(CountsBank::new(allowance), trial),
            Bottom::Bank(Rule::Residues(p)) => {
                drive_pile(ResiduesBank::new(Residues::new(p)?, allowance), trial);
            }
            Bottom::Bank(Rule::Polynomials(f)) => {
                drive_pile(RegisterBank::new(Register::new(f)?, allowance), trial);
            }
            Bottom::Ledger(cells) => drive_pile(Ledger::new(cells, allowance), trial),
        }
        Ok(())
    }
}

// All settings of a pile.
fn drive_settings(bottom: Bottom, layers: &[Layer; 3]) -> Tally {
    let mut tally = Tally::default();
    for mut setting in settings() {
        setting.allowance = bottom.allowance(setting.allowance);
        let mut trial = Trial {
            model: Model::new(bottom.rule(), setting, layers, bottom.cells()),
            before: setting.before,
            tally: &mut tally,
        };
        let driven = bottom.drive(&mut trial);
        trial.tally.expect(driven.is_ok());
    }
    tally
}

const BOTTOMS: [Bottom; 5] = [
    Bottom::Bank(Rule::Sums),
    Bottom::Bank(Rule::Residues(4294967295)),
    Bottom::Bank(Rule::Polynomials(0x8000_0000_0000_0003)),
    Bottom::Ledger(0),
    Bottom::Ledger(255),
];

const ORDERS: [[Layer; 3]; 6] = [
    [Layer::Quota, Layer::Window, Layer::RunSheet],
    [Layer::Quota, Layer::RunSheet, Layer::Window],
    [Layer::Window, Layer::Quota, Layer::RunSheet],
    [Layer::Window, Layer::RunSheet, Layer::Quota],
    [Layer::RunSheet, Layer::Quota, Layer::Window],
    [Layer::RunSheet, Layer::Window, Layer::Quota],
];

fn main(rt: HostRuntime) -> io::Result<()> {
    for bottom in BOTTOMS {
        for layers in ORDERS {
            let tally = drive_settings(bottom, &layers);
            let [first, second, third] = layers;
            let cells = bottom.cells();
            println!(rt; "{first} on {second} on {third} on {bottom} of {cells} cells: {tally}")?;
        }
    }
    Ok(())
}

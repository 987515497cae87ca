//! Lists of loads, readings, runs and jobs, good and bad, performed on each bank and on two piles of layers, and compared with answers that were written out from the rules;
//! and straight runs for every kind, compared with repeated multiplication.
//! `table` has the lists, `lists` performs them, `straight` has the straight runs.
#![tactic(auto)]

mod lists;
mod straight;
mod table;

use banks::{CountsBank, RegisterBank, ResiduesBank};
use kinds::Residues;
use lists::try_list;
use polynomials::Register;
use quota::Quota;
use run_sheet::RunSheet;
use std::io;
use straight::try_straight_runs;
use table::{COUNTS, POLYNOMIALS, QUOTA_ON_WINDOW, RESIDUES, SHEET_ON_QUOTA};
use units::Unit;
use window::Window;

// The allowance of the bank below the quota on the window.
const BELOW_WINDOW: u64 = 1000;

// The limit of the quota below the run sheet.
const BELOW_SHEET: u64 = 20;

// The lists on the banks.
fn print_banks(rt: &HostRuntime, residues: Residues, register: Register) -> io::Result<()> {
    let bank = CountsBank::new(COUNTS.start);
    let tally = try_list(rt.alloc(), bank, COUNTS, |_, _| true)?;
    println!(rt; "counts: {tally}")?;
    let bank = ResiduesBank::new(residues, RESIDUES.start);
    let tally = try_list(rt.alloc(), bank, RESIDUES, |_, _| true)?;
    println!(rt; "residues: {tally}")?;
    let bank = RegisterBank::new(register, POLYNOMIALS.start);
    let tally = try_list(rt.alloc(), bank, POLYNOMIALS, |_, _| true)?;
    println!(rt; "polynomials: {tally}")
}

// The bank below a quota and a window has made the same multiplications.
fn print_quota_on_window(rt: &HostRuntime, residues: Residues) -> io::Result<()> {
    let bank = ResiduesBank::new(residues, BELOW_WINDOW);
    let quota = Quota::new(Window::new(bank, 4, 2), QUOTA_ON_WINDOW.start);
    let tally = try_list(rt.alloc(), quota, QUOTA_ON_WINDOW, |quota, spending| {
        let bank = quota.take_off().take_off();
        BELOW_WINDOW.checked_sub(spending.spent) == Some(bank.allowance())
    })?;
    println!(rt; "quota on window on residues: {tally}")
}

// A run sheet has a record of each multiplication, and the quota below it counts the same.
fn print_sheet_on_quota(rt: &HostRuntime, register: Register) -> io::Result<()> {
    let bank = RegisterBank::new(register, SHEET_ON_QUOTA.start);
    let sheet = RunSheet::new(Quota::new(bank, BELOW_SHEET));
    let tally = try_list(rt.alloc(), sheet, SHEET_ON_QUOTA, |sheet, spending| {
        let recorded = sheet.len() as u64 == spending.spent;
        let quota = sheet.take_off();
        recorded && quota.allowance() == spending.left
    })?;
    println!(rt; "run sheet on quota on polynomials: {tally}")
}

fn main(rt: HostRuntime) -> io::Result<()> {
    let (Ok(small), Ok(large), Ok(byte), Ok(word)) = (
        Residues::new(97),
        Residues::new(4294967295),
        Register::new(0x11b),
        Register::new(0x8000_0000_0000_0003),
    ) else {
        return println!(rt; "a modulus is refused");
    };
    print_banks(&rt, small, byte)?;
    print_quota_on_window(&rt, large)?;
    print_sheet_on_quota(&rt, word)?;
    let straight = try_straight_runs(rt.alloc())?;
    println!(rt; "straight runs: {straight}")
}

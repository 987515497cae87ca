//! The fitting on a card of each kind: a bank under a window.
use crate::request::{CardKind, Request};
use banks::{CountsBank, RegisterBank, ResiduesBank};
use fitting::{Fitted, Tables, fit};
use jobs::JobRefusal;
use kinds::{Count, Residues};
use polynomials::{Register, Word};
use refusals::Refusal;
use std::fmt;
use units::Unit;
use window::Window;

/// Why nothing was fitted; it is written as where that was found.
#[derive(Clone, Copy)]
pub(crate) enum CardError {
    /// There is no such card.
    NoCard(Refusal),
    /// The sheet or the plan was refused.
    Refused(JobRefusal),
}

impl CardError {
    /// The refusal itself.
    pub(crate) fn refusal(&self) -> Refusal {
        match self {
            CardError::NoCard(refusal) => *refusal,
            CardError::Refused(refused) => refused.refusal,
        }
    }
}

impl fmt::Display for CardError {
    fn fmt<W: fmt::Write>(&self, f: &mut fmt::Formatter<W>) -> fmt::Result {
        match self {
            CardError::NoCard(_) => f.write_str("when the card is made"),
            CardError::Refused(refused) => write!(f, "stage {}", refused.stage),
        }
    }
}

impl From<JobRefusal> for CardError {
    fn from(refused: JobRefusal) -> CardError {
        CardError::Refused(refused)
    }
}

// Fits the plan of the sheet to a card over the bank; the power is a plain number.
fn fit_to_bank<U: Unit + Drop>(
    bank: U,
    base: U::Value,
    request: &Request,
    text: &[u8],
    tables: &mut Tables,
) -> Result<Fitted<u64>, CardError>
where
    U::Value: Into<u64>,
{
    let mut card = Window::new(bank, 0, request.cells);
    let found = fit(&mut card, text, request.exponent, base, tables)?;
    Ok(Fitted {
        plan: found.plan,
        trimmed: found.trimmed,
        power: found.power.into(),
        left: found.left,
    })
}

/// Makes the card, and fits the plan of the sheet to it.
pub(crate) fn fit_to_card(
    request: &Request,
    text: &[u8],
    tables: &mut Tables,
) -> Result<Fitted<u64>, CardError> {
    let allowance = request.allowance;
    match request.kind {
        CardKind::Counts => {
            let bank = CountsBank::new(allowance);
            fit_to_bank(bank, Count::from(request.base), request, text, tables)
        }
        CardKind::Residues => {
            let rule = Residues::new(request.modulus).map_err(CardError::NoCard)?;
            let base = (request.base & 0xffff_ffff) as u32;
            let bank = ResiduesBank::new(rule, allowance);
            fit_to_bank(bank, base, request, text, tables)
        }
        CardKind::Polynomials => {
            let rule = Register::new(request.modulus).map_err(CardError::NoCard)?;
            let bank = RegisterBank::new(rule, allowance);
            fit_to_bank(bank, Word::from(request.base), request, text, tables)
        }
    }
}

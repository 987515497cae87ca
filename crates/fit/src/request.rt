//! What the program is asked.
use std::fmt;
use std::str::FromStr;

const MOST_CELLS: u8 = 32;

const MOST_RESIDUE: u64 = 0xffff_ffff;

/// The kind of value on the card.
#[derive(Clone, Copy, PartialEq, Eq, Debug)]
pub(crate) enum CardKind {
    Counts,
    Residues,
    Polynomials,
}

impl fmt::Display for CardKind {
    fn fmt<W: fmt::Write>(&self, f: &mut fmt::Formatter<W>) -> fmt::Result {
        f.write_str(match self {
            CardKind::Counts => "counts",
            CardKind::Residues => "residues",
            CardKind::Polynomials => "polynomials",
        })
    }
}

impl FromStr for CardKind {
    type Err = RequestError;

    fn from_str(text: &str) -> Result<CardKind, RequestError> {
        match text {
            "counts" => Ok(CardKind::Counts),
            "residues" => Ok(CardKind::Residues),
            "polynomials" => Ok(CardKind::Polynomials),
            _ => Err(RequestError::UnknownKind),
        }
    }
}

/// What is wrong with a request.
#[derive(Clone, Copy, PartialEq, Eq, Debug)]
pub(crate) enum RequestError {
    /// The word of this name is not a number.
    NotNumber(&'static str),
    /// No kind has this name.
    UnknownKind,
    /// The number of cells is not a number.
    CellsNotNumber,
    /// There are more cells than a bank has.
    CellsAbove,
    /// Counts with a modulus.
    ModulusOfCounts,
    /// A base that no residue is.
    BaseAbove,
}

impl fmt::Display for RequestError {
    fn fmt<W: fmt::Write>(&self, f: &mut fmt::Formatter<W>) -> fmt::Result {
        match self {
            RequestError::NotNumber(name) => {
                write!(f, "{name} is not a whole number of at most 64 bits")
            }
            RequestError::UnknownKind => {
                f.write_str("KIND is none of counts, residues and polynomials")
            }
            RequestError::CellsNotNumber => f.write_str("CELLS is not a whole number"),
            RequestError::CellsAbove => write!(f, "CELLS is above {MOST_CELLS}"),
            RequestError::ModulusOfCounts => f.write_str("MODULUS is 0 for counts"),
            RequestError::BaseAbove => {
                write!(f, "BASE is above {MOST_RESIDUE}, and no residue is")
            }
        }
    }
}

/// The exponent, the card and the base.
#[derive(Clone, Copy)]
pub(crate) struct Request {
    pub(crate) exponent: u64,
    pub(crate) kind: CardKind,
    pub(crate) modulus: u64,
    pub(crate) cells: u8,
    pub(crate) allowance: u64,
    pub(crate) base: u64,
}

// The number that the word of this name is.
fn number(name: &'static str, text: &str) -> Result<u64, RequestError> {
    text.parse().map_err(|_| RequestError::NotNumber(name))
}

// The number of cells that a word is.
fn cells(text: &str) -> Result<u8, RequestError> {
    let count: u64 = text.parse().map_err(|_| RequestError::CellsNotNumber)?;
    match u8::try_from(count) {
        Ok(count) if count <= MOST_CELLS => Ok(count),
        _ => Err(RequestError::CellsAbove),
    }
}

impl Request {
    /// The request that these words of a command line make, or what is wrong with them.
    pub(crate) fn parse(
        [exponent, kind, modulus, cell_count, allowance, base]: [&str; 6],
    ) -> Result<Request, RequestError> {
        let request = Request {
            exponent: number("EXPONENT", exponent)?,
            kind: kind.parse()?,
            modulus: number("MODULUS", modulus)?,
            cells: cells(cell_count)?,
            allowance: number("ALLOWANCE", allowance)?,
            base: number("BASE", base)?,
        };
        match request.kind {
            CardKind::Counts if request.modulus != 0 => Err(RequestError::ModulusOfCounts),
            CardKind::Residues if request.base > MOST_RESIDUE => Err(RequestError::BaseAbove),
            _ => Ok(request),
        }
    }
}

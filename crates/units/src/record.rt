//! The record of a multiplication.

/// What a unit that keeps records adds for a multiplication: cell `to` got the product of cells `a` and `b`.
#[derive(Clone, Copy, PartialEq, Eq, Default, Debug)]
pub struct Record {
    pub to: u8,
    pub a: u8,
    pub b: u8,
}

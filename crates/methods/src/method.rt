//! The five methods.
ghost use Rattle.std.specs.Prelude.{◌≡◌, ◌≤◌, length, take, IfOk};
ghost use Rattle.plans.specs.Chain.{Chain};
ghost use Rattle.planning.specs.Planning.{length_or, written};
ghost use Rattle.methods.specs.Methods.{method_of, plan_of, request_by, ParentsBy};

use binary_plans::{left_to_right, right_to_left};
use digit_plans::{MOST_WIDTH, digits};
use factor_plans::factor;
use plans::Step;
use refusals::Refusal;
use tree_plans::tree;

// The most bits of a digit, as a number of a request.
const WIDEST: u64 = MOST_WIDTH as u64;

/// A planning method.
#[derive(Clone, Copy)]
pub enum Method {
    /// From the highest bit down.
    LeftToRight,
    /// From bit 0 up.
    RightToLeft,
    /// By the smallest divisors.
    Factor,
    /// By digits of so many bits.
    Digits(u32),
    /// By the path in the power tree.
    Tree,
}

impl Method {
    /// The method of this number and width; the width is 0 but for digits.
    pub fn numbered(number: u64, width: u64) -> Option<Method>
        ensures value { result ≡ method_of number width }
    {
        match (number, width) {
            (1, 0) => Some(Method::LeftToRight),
            (2, 0) => Some(Method::RightToLeft),
            (3, 0) => Some(Method::Factor),
            (4, 1..=WIDEST) => Some(Method::Digits(width as u32)),
            (5, 0) => Some(Method::Tree),
            _ => None,
        }
    }

    /// Writes the method's plan of n into the first places of the table, and answers its length. Only the tree fills the table of parents.
    pub fn plan(self, n: u64, table: &mut [Step], parents: &mut [u16]) -> Result<usize, Refusal>
        ensures answer { result ≡ length_or (request_by self n (length table.old) (length parents.old)) (plan_of self n) }
        ensures after { table.new ≡ written result (plan_of self n) table.old }
        ensures parents { ParentsBy self result parents.old parents.new }
        ensures within { IfOk result (λ l. l ≤ 128) }
        ensures chain { IfOk result (λ l. Chain n (take l table.new)) }
    {
        match self {
            Method::LeftToRight => left_to_right(n, table),
            Method::RightToLeft => right_to_left(n, table),
            Method::Factor => factor(n, table),
            Method::Digits(width) => digits(n, width, table),
            Method::Tree => tree(n, table, parents),
        }
    }
}

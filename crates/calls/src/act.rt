//! What a call does, and what it answers.
use jobs::JobRefusal;
use plans::Plan;
use refusals::Refusal;
use runs::Raised;

/// What a call does.
#[derive(Drop)]
pub enum Act<'a, V> {
    /// Loads the value into the cell.
    Load(u8, V),
    /// Reads the cell.
    Read(u8),
    /// Runs the plan from the base.
    Run(Plan<'a>, V),
    /// Carries the sheet through reading, admission for the exponent, and running from the base.
    Job(&'a [u8], u64, V),
}

/// What a call answers.
#[derive(Clone, Copy)]
pub enum Answer<V> {
    /// A load's answer.
    Loaded(Result<(), Refusal>),
    /// A reading's answer.
    Got(Result<V, Refusal>),
    /// A run's answer.
    Power(Result<Raised<V>, Refusal>),
    /// A job's answer.
    Carried(Result<Raised<V>, JobRefusal>),
}

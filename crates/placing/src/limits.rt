//! The bounds of a placing.

/// The most values that a plan has: a table for their cells has at least as many places.
pub use plans::MOST_VALUES;

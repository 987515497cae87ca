//! Fields: numbers right-justified in columns of bytes.
//! `parse` has the number that a field holds, `write` puts a number into a field.
#![tactic(auto)]

pub mod parse;
pub mod write;

pub use parse::{MOST_COLUMNS, parse_field};
pub use write::write_field;

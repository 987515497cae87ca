//! Sheets: a plan as text, one line of 32 bytes for each step.
//! `write` has the sheet of a plan, `reader` the view that reads one; below them stand `column` with the columns of a line,
//! `fault` with what is wrong with a line and where, `line` with a line written and read, and `text` with the lines of a text.
#![tactic(auto)]

mod column;
mod fault;
mod line;
pub mod reader;
mod text;
pub mod write;

pub use line::LINE_BYTES;
pub use reader::SheetReader;
pub use write::write_sheet;

//! Fitting: the plan of a sheet is trimmed, placed, rehearsed in whole numbers, and run on a card.
//! `fitter` has the two public calls, `tables` the lent working memory, `fitted` what is answered, `words` the refusals in words;
//! below them stand `records` with records worked in sums, `rehearsal` with the run in whole numbers, and `card` with the run on the card.
#![tactic(auto)]

mod card;
pub mod fitted;
pub mod fitter;
mod records;
mod rehearsal;
pub mod tables;
pub mod words;

pub use fitted::{Fitted, Size};
pub use fitter::{fit, fit_plan};
pub use tables::Tables;
pub use words::describe;

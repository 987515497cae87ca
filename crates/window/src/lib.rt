//! A window: a layer on a unit of any make that shows some of its cells.
//! `window` has the layer, which is itself a unit of the same kind.
#![tactic(auto)]

pub mod window;

pub use window::Window;

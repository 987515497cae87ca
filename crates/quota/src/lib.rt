//! A quota: a layer on a unit of any make that limits the multiplications which reach it.
//! `quota` has the layer, which is itself a unit of the same kind.
#![tactic(auto)]

pub mod quota;

pub use quota::Quota;

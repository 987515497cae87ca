//! The power tree up to 1,024: its bounds here, the tree itself in the specs.
//! specs/Tree has the tree level by level, with its paths, parents and plans; specs/Rule what a level is in the words of the rule; specs/Growth how the tree grows over a table of parents.
//! The proofs say that the three are one tree, and that each plan is a chain, no longer than that of the left to right method.
#![tactic(auto)]

/// The largest number of the tree.
pub const TOP_NUMBER: u64 = 1024;

/// The levels that have every number of the tree.
pub const LEVELS: usize = 19;

/// The places of a table of parents: one for each number from 0 on.
pub const PARENTS: usize = 1025;

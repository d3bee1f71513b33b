//! An exchange of two sides: each multiplies one base by its key, hands the answer over and
//! multiplies what it got.
#![tactic(auto)]

pub mod exchange;

//! The steps of a multiplication: their values, their counts, and the windows of a correction.
#![tactic(auto)]

pub mod corrections;
pub mod plain;

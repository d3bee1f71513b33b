//! What the programs share of lines: cutting them, reading their fields, telling a refusal, counting.
#![tactic(auto)]

pub mod field;
pub mod line;
pub mod program;
pub mod summary;
pub mod written;

//! Numbers as text: fields cut out of a line, numbers read from digits, and numbers written as digits.
#![tactic(auto)]

pub mod decimal;
pub mod fields;
pub mod hex;
pub mod write;

//! The lines that ask for an exchange, and how they are answered.
#![tactic(auto)]

pub mod answer;
pub mod line;
pub mod program;
pub mod request;

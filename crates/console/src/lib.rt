//! The lines that `recode` reads, and how they are answered.
#![tactic(auto)]

pub mod answer;
pub mod line;
pub mod program;
pub mod request;

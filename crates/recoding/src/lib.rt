//! The recoding of a key into signed windows of a random shift, and the check of a coding.
#![tactic(auto)]

pub mod check;
pub mod coded;
pub mod digit;
mod power;
pub mod recode;
mod window;
pub mod worked;

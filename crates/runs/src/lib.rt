//! Lists of multiplications, one after another on one device.
#![tactic(auto)]

pub mod run;
pub mod task;
pub mod worked;

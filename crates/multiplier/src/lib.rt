//! The multiplication over every group device and every sign rule.
#![tactic(auto)]

mod build;
mod correction;
mod evaluate;
mod layout;
pub mod multiply;
mod operations;
mod table;
mod word;

//! The three groups by number, and their elements by the numbers of their codes.
#![tactic(auto)]

pub mod element;
pub mod kind;
pub mod pair_device;

//! What a recoding takes: its sizes, a key, a draw and a sign rule.
#![tactic(auto)]

pub mod draw;
pub mod key;
pub mod rule;
pub mod sign;
pub mod sizes;
pub mod window_rule;

//! What every layer shares: the refusals, and the reader of lent bytes.
#![tactic(auto)]

pub mod refusal;
pub mod stream;

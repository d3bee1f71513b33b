//! Groups behind one interface: a trait of devices that count their operations, the laws that
//! every device keeps, and three devices that keep them.
#![tactic(auto)]

pub mod clock;
mod counted;
pub mod curve;
pub mod device;
mod modulus;
pub mod multiples;
pub mod sums;
pub mod tally;

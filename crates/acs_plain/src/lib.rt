//! One step of the Viterbi decoder: add, compare, select over the 64 states of the inner code.
//!
//! The meaning of a step is the contract of the trait `Acs`. `PlainAcs` computes the states one by one.
#![tactic(auto)]

mod acs;
mod plain;
mod sums;

pub use acs::Acs;
pub use plain::PlainAcs;
pub use sums::Sums;

//! Random loads from a number: what a trial sends and how it disturbs it.
//!
//! [`Load`] takes the words of one generator in order and makes counts, shifts, pieces, packets and bursts of them, so
//! that a number gives the same load on every machine.
#![tactic(auto)]

pub mod laws;
mod load;

pub use load::{Burst, Load};

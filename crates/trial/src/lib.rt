//! A trial of the whole chain: random packets from a number are sent, their cells disturbed and received, and the
//! received packets counted.
//!
//! The definitions are in `specs/`: the packets of a number, the disturbed cells of their transmission, and the output
//! of a receiver for them. [`Trial`] works symbol by symbol and never holds the whole transmission; [`TrialCounts`] has
//! its counts. [`laws`] are the laws of the definitions; by [`workers`] the number of workers changes nothing.
#![tactic(auto)]

mod counts;
mod disturbing;
mod draws;
mod feeding;
pub mod laws;
mod sums;
mod whole;
mod work;
pub mod workers;

pub use counts::{StreamReturn, TrialCounts};
pub use whole::Trial;

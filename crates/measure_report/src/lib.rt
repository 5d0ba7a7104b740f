//! The counts of a measurement in a symbol and in a super-frame, and the lines of its report.
#![tactic(auto)]

mod sums;
mod text;

pub use rx_report::Line;
pub use sums::{BitSums, StreamSums, SuperFrame, SymbolSums};

//! Received symbols beside the cells that the known bits of their streams stand for (ETSI TR 101 290, 9.15 to 9.18).
//!
//! [`Comparer`] keeps the cells of the last four symbols. It compares symbol after symbol, if the known bits of each
//! of its streams reach to its end, and leaves the others out.
#![tactic(auto)]

mod comparer;
mod history;
pub mod laws;
mod streams;

pub use comparer::Comparer;

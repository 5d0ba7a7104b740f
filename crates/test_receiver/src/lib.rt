//! The receiver with the symbols of the modulator: pieces of any size, paths that do not merge, the text of reports,
//! hostile cells, and trials.
//!
//! The crate has tests alone. [`Received`] feeds a receiver, a [`Cut`] cuts bytes into pieces.
#![tactic(auto)]

mod cut;
mod receiving;
#[cfg(test)]
mod tests;

pub use cut::Cut;
pub use receiving::{Received, Reception};

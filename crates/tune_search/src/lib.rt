//! The search for a place in the symbols of a file of cells: the first frame whose TPS word can be read.
//!
//! EN 300 744, 4.6. The tuner finds a place among symbols; this crate finds it in the bytes of a file, symbol by
//! symbol.
#![tactic(auto)]

pub mod laws;
mod line;
mod search;

pub use line::place_line;
pub use search::Search;

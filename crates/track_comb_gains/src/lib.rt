//! Interpolation in time: the gain at the comb points of a symbol, from the scattered pilots of the symbols around
//! it.
//!
//! EN 300 744, 4.5.3, has the pilots; the rules are this project's own.
#![tactic(auto)]

mod gains;
pub mod plain;
mod tables;
mod taps;

pub use gains::point_gains;

//! Symbol after symbol of a file, each corrected by the scattered pilots of the symbols around it.
//!
//! The rules are this project's own.
#![tactic(auto)]

mod gains;
mod symbol;
mod tracker;

pub use tracker::Tracker;

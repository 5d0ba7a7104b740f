//! Cells corrected by the pilots of their own symbol: the gain of the channel at each carrier is interpolated linearly
//! between the pilots around it, and each cell is divided by it.
//!
//! The pilots are those of EN 300 744, 4.5; the rule is this project's own.
#![tactic(auto)]

mod divide;
mod equalised;
mod estimate;
mod gain;
pub mod laws;
pub mod plain;
mod runs;
mod span;
mod symbol;

pub use equalised::Equalised;
pub use gain::Gain;
pub use symbol::{equalise, equalise_into};

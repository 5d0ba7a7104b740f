//! The common phase of two symbols and how far neighbouring symbols differ, by the continual pilots.
//!
//! EN 300 744, 4.5.4, has the pilots; the rules are this project's own.
#![tactic(auto)]

mod continual;
mod sums;
mod turns;

pub use continual::continual_points;
pub use turns::{change, turn};

//! Channel tracking: the cells of a file corrected by the scattered pilots of neighbouring symbols. Definitions, and
//! laws as contracts of functions with empty bodies.
//!
//! The pilots are those of EN 300 744, 4.5; the rule is this project's own.
#![tactic(auto)]

pub mod laws;
mod motion;
mod tracked;

pub use motion::Motion;
pub use tracked::Tracked;

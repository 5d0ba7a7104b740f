//! The flat gain law of channel tracking: a transmission received through a flat channel is restored when its cells are
//! corrected by the scattered pilots of neighbouring symbols.
//!
//! [`gains`] has the laws of the gain at a comb point: its bound, and its value on a channel that does not change. The
//! crate has no code.
#![tactic(auto)]

pub mod gains;
pub mod laws;

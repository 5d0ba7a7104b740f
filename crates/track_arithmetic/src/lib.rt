//! The arithmetic of channel tracking: products of complex whole numbers, roundings, the direction of a
//! complex number, the middle one of numbers. The rules are this project's own.
#![tactic(auto)]

mod complex;
mod directions;
pub mod laws;
mod order;
mod rounding;

pub use complex::Complex;
pub use directions::direction;
pub use order::middle;
pub use rounding::{near, shifted, value_by, value_near};

//! Constellations: from the bits of a label to a cell (EN 300 744, 4.3.5).
#![tactic(auto)]

mod cell;
mod constellation;
pub mod laws;

pub use cell::Cell;
pub use constellation::{levels, map, spacing, tolerance};

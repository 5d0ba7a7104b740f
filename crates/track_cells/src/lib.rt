//! A symbol corrected by the gains at its comb points: the gains at all carriers, the power with which a
//! cell counts whole, and the corrected cells with their weights.
//!
//! The rules are this project's own.
#![tactic(auto)]

mod blocks;
mod coefficients;
mod correction;
mod estimate;
mod frequency;
pub mod plain;
mod reference_power;
mod rows;
mod turns;
mod weights;

pub use correction::push_corrected;
pub use frequency::interpolate;
pub use reference_power::{full_power, mean_power};

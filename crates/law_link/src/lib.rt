//! The reception of a transmission's own cells, and of cells close to them: laws that relate the definitions of sending
//! and of receiving.
//!
//! [`flat_gain`] is the law of a flat channel (one gain for all carriers): the transmission is restored when its cells
//! are corrected by the pilots of their own symbols. [`upgraded`] has the laws of cell files of version 1, with four
//! bytes a cell, no header and no weights: for a receiver the upgraded cells have the costs of the old cells without
//! weights. The crate has no code.
#![tactic(auto)]

pub mod flat_gain;
pub mod laws;
pub mod upgraded;

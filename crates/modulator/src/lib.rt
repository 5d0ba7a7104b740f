//! The transmitter: transport packets of one or two streams become the symbols of a transmission, one after another.
//!
//! EN 300 744, clause 4. The order of work is this project's own: packets are taken when the next symbol needs them,
//! those of the high priority stream first.
#![tactic(auto)]

pub mod laws;
mod modulator;
mod next_labels;
mod plain;
mod stream;
mod super_frames;
mod want;

pub use modulator::Modulator;
pub use want::Want;

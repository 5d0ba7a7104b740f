//! The survivors of the Viterbi decoder: the pending bits of the 64 paths, and their shared prefix.
//!
//! Survivors are defined by the contract of the trait `Survivors`: a list of pending bits for each alive state.
//! `ListSurvivors` stores these lists, `RingSurvivors` one decision word for each step.
#![tactic(auto)]

mod bits;
mod plain;
mod ring;
mod survivors;

pub use plain::ListSurvivors;
pub use ring::{RingSurvivors, trace_follows};
pub use survivors::Survivors;

//! Reception from any symbol on: finds a frame by the TPS words of the symbols, and from it the settings of the
//! transmission and the first symbol of the next super-frame.
//!
//! EN 300 744, 4.6; the votes and the rule for places are this project's own.
#![tactic(auto)]

mod frame;
mod laws;
mod reception_settings;
mod tuner;

pub use frame::{Found, begin};
pub use laws::{found_stays, more_bytes, one_found, symbols_of_bytes};
pub use reception_settings::announced;
pub use tuner::Tuner;

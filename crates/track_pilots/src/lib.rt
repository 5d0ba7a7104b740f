//! The pilots of the last sixteen symbols of a file, by which a symbol in their midst is corrected.
//!
//! EN 300 744, 4.5, has the pilots.
#![tactic(auto)]

mod pilots_of_symbol;
mod window;

pub use window::PilotWindow;

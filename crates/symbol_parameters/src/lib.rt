//! The settings of each symbol and super-frame of a transmission, and the steps and outer words of a stream before
//! them: definitions, and laws as contracts of functions with empty bodies (EN 300 744, 4.4 and 4.7). A function
//! returns the parameters of a symbol.
#![tactic(auto)]

pub mod laws;
mod parameters;

pub use parameters::parameters_of_symbol;

//! The cells and weights of the last eight symbols of a file.
#![tactic(auto)]

mod ring;

pub use ring::SymbolRing;

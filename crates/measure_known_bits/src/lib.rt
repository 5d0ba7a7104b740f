//! The decided bits of a measured stream that its encoder has not passed.
//!
//! [`KnownBits`] takes the bits as they are known. It gives those of the next symbol to the encoder, if they reach to
//! the symbol's end, and moves the encoder on over those of a symbol that is left out, as far as they are known and
//! when they come.
#![tactic(auto)]

mod known;
pub mod laws;
mod moving;

pub use known::KnownBits;

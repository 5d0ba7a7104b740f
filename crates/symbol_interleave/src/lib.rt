//! The symbol interleaver: in which order the payload carriers of a symbol carry its words
//! (EN 300 744, 4.3.4.2).
#![tactic(auto)]

mod addresses;
pub mod laws;
mod permutation;

pub use permutation::Permutation;

//! The streaming Viterbi decoder of the inner code.
//!
//! It outputs a bit once the least paths to all 64 registers agree on it, or reports that its path memory ended
//! unmerged. Its output is exactly the bits given of the definitions in `code_paths`, for every step of `acs_plain` and
//! all survivors of `survivor_ring`, from their contracts alone.
#![tactic(auto)]

mod branch;
mod decoder;
mod held;
mod metric;
mod plain;

pub use branch::Branch;
pub use decoder::{Decoder, StartState, Unmerged};

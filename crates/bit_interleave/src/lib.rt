//! The places of a symbol's coded bits in the labels of its words: demultiplexing and the bit
//! interleavers in one formula (EN 300 744, 4.3.4.1).
#![tactic(auto)]

pub mod laws;
mod places;

pub use places::{MOST_WORDS, bit_at, place};

//! Shared by tests of single layers: settings, random numbers, bits and packets, and sums of bytes.
//!
//! No command uses the crate.
#![tactic(auto)]

mod drawn;
mod given;
mod packets;

pub use drawn::{fill, next_byte, next_number};
pub use given::{flat, hierarchical};
pub use packets::{checksum, interleaved};

//! The outer coding of a stream, as it is sent and as it is received (EN 300 744, 4.3.1 and 4.3.2).
//!
//! [`OuterTx`] disperses packets, encodes them and interleaves the codewords. [`OuterRx`] takes interleaved bytes and
//! gives each word after the first eleven as a [`WordSlot`]. Slots are decoded independently and returned in order;
//! `OuterRx` then gives their packets.
#![tactic(auto)]

pub mod laws;
mod rx;
mod slot;
mod tx;

pub use rx::OuterRx;
pub use slot::WordSlot;
pub use tx::OuterTx;

//! Bits to bytes and back: a queue of bits.
//!
//! Bytes are split and joined most significant bit first.
#![tactic(auto)]

mod bit_buf;
mod bit_word;

pub use bit_buf::{BitBuf, WaitBuf};
pub use bit_word::BitWord;

//! Rescue of outer words (EN 300 744, 4.3.2; the choice of erasures is this project's profile).
//!
//! The margin of a byte says how reliable the inner decoder's decision is. If a received word has no nearest codeword,
//! its eight bytes of least margin are erased, and the codeword found then, if any, takes its place. [`RescueWords`]
//! takes the interleaved bytes of a stream with their margins, and returns the packets of its words.
#![tactic(auto)]

mod bytes;
mod counts;
mod fill;
pub mod laws;
mod lines;
mod plain;
mod recovery;
mod words;

pub use bytes::push_byte_margins;
pub use counts::{RescueCounts, WordKind};
pub use plain::MarginRx;
pub use recovery::recover;
pub use words::RescueWords;

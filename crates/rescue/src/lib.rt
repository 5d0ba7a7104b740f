//! The receiver with rescue: from bytes of cells, in pieces of any length, to the packets of one or two transport
//! streams.
//!
//! [`Rescue`] works like the plain receiver, and also finds how reliable each bit is: if a received word has no nearest
//! codeword, its eight least reliable bytes are erased, and the codeword found then, if any, takes its place. The
//! output is the rescue output of the definitions in `specs/`, as far as it is decided and at the end. [`laws`]: bytes
//! of cells have one rescue output at each moment, and the output of a prefix is a prefix of the output. [`Counts`] has
//! the counts of such a reception, and the closing lines of its report.
#![tactic(auto)]

mod blocks;
mod counts;
mod feed;
pub mod laws;
mod queues;
mod stream;
mod text;

pub use counts::{Counts, StreamCounts};
pub use feed::Rescue;
pub use inner_receiver::RxOut;

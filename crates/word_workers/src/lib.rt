//! The parallel work of a receiver: the outer words of a symbol in chunks, and the inner decoders of two streams at the
//! same time.
//!
//! [`decode_all`] decodes words with workers, each of which has a chunk of its own; [`both`] runs a symbol on two
//! decoders, and [`both_over`] steps them through pairs in place. Every word and every decoder ends as with a single
//! thread. No mutable data is shared, nothing is locked, and if no thread can be started the pieces run one after
//! another. Each piece enters a [`Gate`] first, so a test can see that pieces run in parallel.
#![tactic(auto)]

mod gate;
mod inner;
mod outer;
mod plain;

pub use gate::{Gate, Job, OpenGate};
pub use inner::both_over;
pub use outer::decode_all;
pub use plain::both;

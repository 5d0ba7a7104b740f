//! The receiver: from bytes of cells, in pieces of any length, to the packets of one or two transport streams.
//!
//! [`Receiver`] takes bytes of cells in pieces and gives, after each, the output that they make definite. The cells of
//! each symbol give the costs of each stream's steps, the streaming decoders the bits on which all survivors agree,
//! these the outer words, and the words the packets. It also reads the TPS words of the frames. Its output is the live
//! output of the definitions in `reception`, and at the end the final one.
#![tactic(auto)]

mod feed;
mod stream;
mod words;

pub use feed::Receiver;
pub use inner_receiver::RxOut;

//! From bytes of cells, in pieces of any length, to the bits of each stream, symbol by symbol.
//!
//! [`SymbolCosts`] takes the bytes and gives, for each whole symbol, its cells, their weights and the cost pairs of
//! each stream. These go to the decoders of the streams ([`take_symbol`]), which give all bits on which their survivors
//! agree, and at the end the rest ([`end`]). [`FrameReader`] reads the TPS words of the frames. [`RxOut`] has the
//! output of the last call of a receiver. The bits are used by the receivers above.
#![tactic(auto)]

mod branches;
mod cells;
mod frames;
mod out;
mod pairs;

pub use branches::{StreamBranch, begin, end, start_state, take_symbol};
pub use cells::SymbolCosts;
pub use frames::FrameReader;
pub use out::RxOut;

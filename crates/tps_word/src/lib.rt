//! Transmission parameter signalling (TPS): the 67 bits that a frame of 68 symbols carries on its TPS carriers, from
//! their fields and back, and the bit decided from two symbols.
//!
//! EN 300 744, 4.6.
#![tactic(auto)]

mod cells;
mod fields;
mod laws;
mod nearest;
mod votes;
mod word;

pub use cells::take_tps_cells;
pub use laws::{one_word_is_signalled, words_are_read_back};
pub use votes::vote;
pub use word::TpsWord;

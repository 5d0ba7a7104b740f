//! The received outer words of a measured stream: how many there are of each kind in a super-frame, and how many bits
//! are repaired in them (ETSI TR 101 290, 9.15 and 9.16).
//!
//! [`MeasuredWords`] takes the interleaved bytes of a stream, decodes its words and counts them, those of the current
//! super-frame and those after it apart.
#![tactic(auto)]

mod counts;
mod repaired;
mod words;

pub use counts::WordSums;
pub use words::MeasuredWords;

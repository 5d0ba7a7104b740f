//! What a measurer keeps of one stream.
//!
//! [`StreamMeter`] has the decoder of the stream. It hands on the decided bits, to the known bits and in whole bytes
//! to the received words, and counts the decoder's reports by super-frames. At the end of a super-frame it has the
//! sums of the stream in it.
#![tactic(auto)]

pub mod laws;
mod passing;
mod reports;
mod stream;

pub use reports::ReportCounts;
pub use stream::StreamMeter;

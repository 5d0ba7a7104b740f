//! The counts of a reception, and the text of its report.
//!
//! A [`Line`] of a report holds up to 256 bytes; [`push_count`] appends a text and a number, [`name_of`] names a
//! stream.
#![tactic(auto)]

mod counts;
mod line;
mod text;

pub use counts::{Counts, Event, StreamCounts};
pub use line::{Line, name_of, push_count};

//! The command [`track`]: the cells of a file are corrected by the scattered pilots of neighbouring symbols.
//!
//! The file is read symbol by symbol. The new file begins with the same header; each whole symbol follows, corrected,
//! once the seventh symbol after it has arrived, and the last seven at the end. The call has the promise of a run.
#![tactic(auto)]

mod command;
mod rest;
mod tracking_work;

pub use command::track;

//! The command [`measure`]: a monitoring receiver's report on cells, super-frame by super-frame, as they arrive.
//!
//! The cells are read symbol by symbol and passed to a measurer. The lines of a super-frame are written with the symbol
//! that defines them, one write for each. The report is the only output. The call has the promise of a run.
#![tactic(auto)]

mod command;
mod measurers;
mod measuring_work;
mod no_files;
mod writing;

pub use command::measure;

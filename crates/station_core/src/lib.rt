//! The outside of the program: what a command reads and writes.
//!
//! [`Station`] is the trait of the outside. Its contracts use one record, `Meaning` of `specs/Meaning.antt`: each port
//! with the name requested there, what is left to read or was written, and counts of faults. [`MemoryStation`] is an
//! outside in memory that fails on demand.
#![tactic(auto)]

mod memory;
mod ports;
mod sink;
mod source;
mod station;

pub use memory::{Failing, MemoryStation};
pub use ports::{InPort, OutPort};
pub use station::{Failed, Station};

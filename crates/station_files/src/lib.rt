//! A station over files and standard output: the trusted edge of the program.
//!
//! [`FileStation`] meets the contract of `station_core::Station` without known contents, since no contract can say what
//! a file holds. With [`Buffers`] it reads and writes in large pieces. Before it reads more of a file or writes a line
//! to Report, it writes out everything it was given.
#![tactic(auto)]

mod buffer;
mod buffers;
mod opening;
mod outputs;
mod patience;
mod reading;
mod station;
mod writing;

pub use buffers::Buffers;
pub use station::FileStation;

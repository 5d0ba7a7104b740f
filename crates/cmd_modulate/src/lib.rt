//! The command [`modulate`]: one transport file, or two with a hierarchy, become the file of cells of a transmission.
//!
//! The work is symbol by symbol: for each one the packets that it needs are read, and the symbol is written. The call
//! has the promise of a run of its command (`specs/ModulateCommand.antt`).
#![tactic(auto)]

mod command;
mod counts;
mod input;
mod inputs;
mod run;
mod steps;
mod symbols;

pub use command::modulate;
pub use counts::TransmissionCounts;

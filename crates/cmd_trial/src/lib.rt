//! The command [`trial`]: random packets from a number are modulated, disturbed and received, and the packets received
//! are counted.
//!
//! The settings are read, and then all memory is allocated. The command uses no other port: it only writes closing
//! lines to Report. The call has the promise of a run of its command (`specs/TrialCommand.antt`).
#![tactic(auto)]

mod command;
mod lines;
mod run;

pub use command::trial;

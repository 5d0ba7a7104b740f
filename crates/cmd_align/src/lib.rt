//! The command [`align`]: a file of cells that begins at any symbol becomes one that begins at a super-frame.
//!
//! The first frame with a readable TPS word gives the start of the next super-frame, and its parameters. From there on
//! each whole symbol is copied unchanged as soon as it is complete. The call has the promise of a run.
#![tactic(auto)]

mod aligning_work;
mod announcement;
mod command;
mod copying;

pub use command::align;

//! The commands that code the packets of a transport file, in order: [`disperse`], [`outer`] and [`inner`].
//!
//! `specs/Commands.antt` defines each command: its files, its output and its report. A command is a [`Coder`] of
//! packets and one run of it over the station. Each call has one clause, the promise of a run of its command.
#![tactic(auto)]

mod coder;
mod coding;
mod commands;
mod disperser;
mod inner_bytes;
mod inner_coder;
mod outer_coder;
mod packets_command;
mod steps;

pub use coder::Coder;
pub use commands::{disperse, inner, outer};

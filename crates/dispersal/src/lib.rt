//! Energy dispersal of transport packets (EN 300 744, 4.3.1).
//!
//! [`Dispersal`] disperses packets in order and [`undo`] reverses it, both with a table of the pseudo-random sequence.
//! [`Sequence`] is the shift register in the standard's figure, which generates the bytes of the table.
#![tactic(auto)]

pub mod laws;
mod packet;
mod sequence;
mod table;

pub use packet::{Dispersal, undo};
pub use sequence::Sequence;

#[cfg(test)]
mod tests;

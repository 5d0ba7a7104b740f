//! The sums of a symbol beside the labels that are known for it: modulation error, power and wrong bits.
//!
//! [`sum_symbol`] adds up over the payload cells of a symbol what the received cells differ from the points of the
//! labels, and how many of their bits a hard decision gets wrong.
#![tactic(auto)]

pub mod laws;
mod place;
pub mod plain;
mod sent;
mod sums;
mod symbol;
mod table;
mod tables;

pub use symbol::sum_symbol;

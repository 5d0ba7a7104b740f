//! The definitions of a transmission: its cells as one expression each, its symbols and their number, and the order of
//! work of a modulation, with their laws.
//!
//! EN 300 744, clause 4, from transport packets to the cells of the carriers.
#![tactic(auto)]

pub mod laws;

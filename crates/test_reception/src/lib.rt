//! The commands `tune`, `measure` and `rescue` on a station in memory, against an independent program; and a
//! `Measurer` fed in pieces.
//!
//! The crate has tests alone.
#![tactic(auto)]

#[cfg(test)]
mod tests;

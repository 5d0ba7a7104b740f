//! Laws of a measurement: its lines add up to the closing lines of a reception. It has no code.
#![tactic(auto)]

pub mod laws;

//! Small definitions that the specs of several crates share: bits, lists of numbers, least elements.
//!
//! The crate has no code. Its `specs/` are read with the definitions of the standard, and its `proofs/` have the laws
//! of these definitions.
#![tactic(auto)]

//! The carriers of a symbol, layer by layer: positions of bits and words, points and costs, kinds of carriers, the
//! bytes of symbols, labels and costs of whole symbols, TPS, corrected cells, and the search for a frame.
//!
//! The crate has tests alone.
#![tactic(auto)]

#[cfg(test)]
mod tests;

//! The outer code: transport packets, field elements, Reed-Solomon words with and without erasures, interleavers, and
//! words of a stream. The inner decoder: steps in lanes against plain ones, survivors, margins. Rescued words.
//!
//! The crate has tests alone.
#![tactic(auto)]

#[cfg(test)]
mod tests;

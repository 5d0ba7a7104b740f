//! Paths through the trellis of the inner code, and the bits that a stream of costs defines.
//!
//! The inner code is the rate 1/2 mother code 171/133 of EN 300 744, 4.3.3. The definitions use lists of bits: a path
//! is a register of six bits and the input bits, its total is the sum of the costs of its coded bits, and a receiver
//! may output the prefix shared by the least paths to all ends. They involve no decoder. The laws of these definitions
//! are the contracts of the functions below, which have empty bodies; [`uniqueness`] has the laws that a stream of
//! costs always defines bits given, bits at the end and reports.
#![tactic(auto)]

mod costs;
mod laws;
mod trial;
pub mod uniqueness;

pub use costs::CostPair;
pub use laws::{
    ended_once, given_begins_ended, given_grows, given_once, keeps_sent, pairs_speak, paths_extend,
    reports_grow, reports_once, shared_begins_least,
};
pub use trial::{least_path, least_path_to, path_cost};

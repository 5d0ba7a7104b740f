//! One step of the Viterbi decoder in lanes: the new states i and i + 32 from the old states 2i and 2i + 1, sixteen
//! at once.
//!
//! Many steps in a row keep the costs in lanes of 16 bits, all 64 in four vectors, which hold them since alive costs
//! differ by at most 49,140: before each two steps that could leave 16 bits the least is taken from all of them.
//!
//! `LaneAcs` keeps the contract of `acs_plain`. [`forward`] and [`backward`] extend the least totals to and from each
//! state by one step, for callers that need the totals.
#![tactic(auto)]

mod cost_sums;
mod fours;
mod lanes;
mod lanes16;
mod phases;
mod settle;
mod six;
mod slices;
mod step16;
mod totals;
mod word_order;

pub use lanes::LaneAcs;
pub use totals::{backward, forward};

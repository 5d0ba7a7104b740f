//! Puncturing of the inner code at the five rates, and back (EN 300 744, 4.3.3).
#![tactic(auto)]

mod coder;
mod eight_steps;
mod laws;
mod periods;
mod plain;
mod rule;
mod table;

pub use coder::PuncturedEncoder;
pub use laws::{
    bytes_are_paths, lists_are_paths, periods_shift, sent_bits_are_runs, sent_bits_have_steps,
    steps_are_numbered, steps_send_in_order,
};
pub use plain::{Depuncturer, Puncturer};
pub use rule::sent;
pub use table::Sent;

//! Shared by tests of whole runs: settings, transport files, cells with noise, a station in memory with files, the
//! results of a run, and a gate at which workers wait for each other.
//!
//! No command uses the crate.
#![tactic(auto)]

mod cells;
mod files;
mod meeting;
mod receptions;
mod runs;

pub use cells::{
    SUPER_FRAME, SYMBOL, WIDE_SUPER_FRAME, WIDE_SYMBOL, heard, noisy, null_cells, sent,
    wide_null_cells,
};
pub use files::{BASE, File, LAYERED, WHOLE_NULLS, WIDE, text_bytes};
pub use meeting::{Flags, Meeting};
pub use receptions::{EMPTY, Fault, Found, Held, first_wrong, leaves, stands};
pub use runs::{
    Conditions, Made, Ran, UNMADE, ample, run_files, run_gated_files, run_on_cells, words_of,
};
pub use test_tools::checksum;

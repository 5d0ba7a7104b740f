//! The commands `upgrade`, `equalise`, `align` and `track` on a station in memory: whole files, files that end within
//! a symbol, limits, refusals and faults with their results; and a `Tracker` called directly.
//!
//! The crate has tests alone.
#![tactic(auto)]

#[cfg(test)]
mod tests;

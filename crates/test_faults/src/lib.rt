//! Each call of the station in memory that a command makes fails once: the first, the last and the thirty-first of its
//! kind. The status, the report and the content of each output are checked. Also each refusal in the work followed by a
//! failed flush, hostile cells through `receive` itself, and the gate that workers enter.
//!
//! The crate has tests alone.
#![tactic(auto)]

#[cfg(test)]
mod tests;

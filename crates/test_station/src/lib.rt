//! Both stations call by call, the one in memory and the one over files in an empty folder; and settings documents,
//! with plans, accepted and rejected.
//!
//! The crate has tests alone.
#![tactic(auto)]

#[cfg(test)]
mod tests;

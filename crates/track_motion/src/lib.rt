//! How the channel moves around a symbol: the common phase of the symbols around it, which of them are bad, and
//! how well they predict its continual pilots.
//!
//! The rules are this project's own.
#![tactic(auto)]

mod changes;
mod motions;
pub mod plain;
mod residues;
mod surroundings;

pub use changes::{no_changes, push_change};
pub use motions::{motion, noise};
pub use residues::{Residues, follow, turned_value};
pub use surroundings::{Surroundings, is_seen, look_by};

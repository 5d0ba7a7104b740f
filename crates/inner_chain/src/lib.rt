//! The inner coding of a symbol: the labels of its cells from the waiting bits of one or two
//! streams, and the costs of a stream's coded bits from the cells (EN 300 744, 4.3.3 to 4.3.5).
#![tactic(auto)]

mod alike;
mod cell_costs;
mod cost_entries;
mod cost_pairs;
mod cost_tables;
mod entries;
mod four_steps;
mod fours;
mod gather;
mod label_tables;
pub mod laws;
mod parities;
mod plain;
mod runs;
mod rx;
mod sent_parity;
mod step_pairs;
mod symbol;
mod twos;
mod tx;
mod word_labels;

pub use rx::InnerRx;
pub use tx::InnerTx;

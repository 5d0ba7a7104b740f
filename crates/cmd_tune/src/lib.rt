//! The command `tune`: reception of cells that begin at any symbol. The first frame whose TPS word can be
//! read announces the settings. From the next super-frame on the cells are received as by `receive`.
#![tactic(auto)]

mod command;
mod reception_at_place;
mod tuning_work;

pub use command::tune;

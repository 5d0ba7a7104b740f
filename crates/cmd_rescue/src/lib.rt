//! The command [`rescue`]: a file of cells becomes the packets of one transport file, or of two with a hierarchy, and
//! outer words without a nearest codeword are rescued if possible.
//!
//! All else is as in `receive`: the cells are read symbol by symbol, and after each symbol the output of the receiver
//! is written.
#![tactic(auto)]

mod command;
mod work;

pub use command::rescue;

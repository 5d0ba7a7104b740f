//! The commands that convert a file of cells to another one, symbol by symbol.
//!
//! A command supplies a [`Converter`]. The new file has the converter's header, then each whole symbol, converted; the
//! report counts the symbols, and the bytes after them ([`run_conversion`]). The promise of such a command follows from
//! the contract of its converter for one symbol.
//!
//! [`upgrade`]: a file of cells of version 1 becomes one of version 2; each old cell keeps its four bytes and gets full
//! weight. [`equalise`]: each symbol is corrected by its own pilots, by its number in its frame, with the weights of
//! the correction.
#![tactic(auto)]

mod converter;
mod counts;
mod equalise_command;
mod equaliser;
mod old_cells;
mod run;
mod upgrade_command;
mod upgrader;
mod work;

pub use converter::Converter;
pub use counts::line_of_counts;
pub use equalise_command::equalise;
pub use run::run_conversion;
pub use upgrade_command::upgrade;

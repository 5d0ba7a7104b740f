//! The loop of every command that reads cells, symbol by symbol.
//!
//! A command supplies its work, a [`SymbolWork`], and the files that it writes, [`OutputFiles`]. A run ([`run_cells`])
//! opens Cells, reads their header, creates the outputs, passes the cells to the work symbol by symbol up to a limit,
//! and closes the outputs. The contracts of the work's calls become the promise of the run.
#![tactic(auto)]

mod cells;
mod opening;
mod outputs;
mod run;
mod run_error;
mod work;
mod writing;

pub use outputs::{CellFile, OutputFiles, ReceptionFiles};
pub use run::run_cells;
pub use run_error::RunError;
pub use work::SymbolWork;
pub use writing::write_some;

//! The command [`receive`]: a file of cells becomes the packets of one transport file, or of two with a hierarchy.
//!
//! The cells are read symbol by symbol and passed to a receiver. After each symbol its output is written: the packets
//! of HP, those of LP, and the lines of its unmerged reports. The call has the promise of a run. The work on the
//! symbols, [`ReceptionWork`], serves every command that receives in this way; other kinds of reception use the
//! writing.
#![tactic(auto)]

mod command;
mod receivers;
mod reception_work;
mod writing;

pub use cmd_cells::ReceptionFiles;
pub use command::receive;
pub use receivers::ModeReceiver;
pub use reception_work::ReceptionWork;
pub use writing::{ClosingLines, write_lines, write_out};

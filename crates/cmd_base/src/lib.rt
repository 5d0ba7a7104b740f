//! The promise of a run, for any command, and the steps that commands share.
//!
//! `specs/Command.antt` defines a command: the files that it reads and writes, and their contents. `specs/Run.antt` is
//! the promise of a run of any command, in one record. Its values: why a run stops ([`Refusal`]), the counts of a
//! transport file ([`Counts`]), its [`Limits`], and the lines of the report that commands share.
//!
//! The steps over a station: reading into a buffer ([`fill`]), the settings ([`read_settings`], [`read_fitting`]), a
//! line of the report ([`write_line`]), and the end of a refused run ([`settle`], [`refuse`]).
#![tactic(auto)]

mod counts;
mod fitting_step;
mod lines;
mod read;
mod refusal;
mod refusing;
mod settings_step;
mod text;

pub use counts::{Counts, Limits};
pub use fitting_step::read_fitting;
pub use lines::write_line;
pub use read::fill;
pub use refusal::{CellsRefusal, Refusal, SettingsRefusal};
pub use refusing::{refuse, settle};
pub use rx_report::Line;
pub use settings_step::read_settings;
pub use text::{closing_line_of, packets_line_of, text_of};

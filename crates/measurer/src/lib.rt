//! The measurer: from bytes of cells, cut anywhere, to the lines of a measurement (ETSI TR 101 290, 9.15 to 9.18).
//!
//! [`Measurer`] takes bytes of cells in pieces of any length. It compares each received symbol with the cells that
//! the decided bits stand for, as soon as they are known, and gives the lines of a super-frame with the symbol that
//! defines them.
#![tactic(auto)]

mod current;
mod measure_out;
mod measurer;
mod meter;

pub use current::Current;
pub use measure_out::MeasureOut;
pub use measurer::Measurer;

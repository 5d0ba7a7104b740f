//! The definitions of a measurement of received cells.
//!
//! The decided bits known for a symbol and the labels remade from them (`Known`), the sums of a super-frame
//! (`SuperFrames`), and the lines (`Lines`). The sums of a symbol are those of `measure_sums`. The definitions involve
//! no measurer.
#![tactic(auto)]

pub mod laws;

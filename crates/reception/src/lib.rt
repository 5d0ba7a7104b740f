//! The output of a receiver for a cell file: definitions and their laws.
//!
//! The bytes are divided into symbols. The cells of a symbol give the costs of each stream's steps, the costs give
//! inner bits (those decided so far, or all at the end), the bits give outer words, and these the packets. The
//! definitions involve no receiver.
//!
//! Laws: bytes of cells have one reception at each moment, and the output of a prefix is a prefix of the output
//! ([`moments`]); the number of workers changes nothing ([`workers`]); the bytes after the last whole symbol change
//! only their own count in the closing lines ([`whole_symbols`]).
#![tactic(auto)]

pub mod laws;
pub mod moments;
pub mod whole_symbols;
pub mod workers;

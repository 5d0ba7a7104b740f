//! The cells of OFDM symbols: from labels to a symbol's bytes, with its pilots and TPS cells, and from
//! bytes that were cut anywhere back to cells and their weights.
//!
//! EN 300 744, 4.4 to 4.6. A cell is written as its real and then its imaginary part, 16 bits each in
//! two's complement, the high byte first, and one byte of weight: how far it can be trusted, from 0 to
//! 15. What is sent has weight 15 throughout.
#![tactic(auto)]

mod carrier_content;
mod cell_file;
mod cell_table;
mod five_bytes;
mod laws;
pub mod plain;
mod put_cells;
mod read_cells;
mod symbol_in;
mod symbol_out;
mod tps_sign;
mod word_carriers;

pub use cell_file::header;
pub use five_bytes::{cell_bytes, push_five};
pub use laws::{
    cells_are_read_back, symbols_announce_themselves, symbols_follow_labels, symbols_repeat,
};
pub use symbol_in::SymbolIn;
pub use symbol_out::SymbolOut;
pub use word_carriers::WordCarriers;

// The memory of a station.
use std::alloc::{AllocError, Global};

/// The size of one read from a file, and of the bytes gathered for one write.
pub const BUFFER: usize = 32768;

/// Memory for the eight ports of a station.
#[derive(Drop)]
pub struct Buffers {
    /// Bytes read from the settings.
    pub settings: Vec<u8>,
    /// Bytes read from HP.
    pub hp: Vec<u8>,
    /// Bytes read from LP.
    pub lp: Vec<u8>,
    /// Bytes read from the cells.
    pub cells: Vec<u8>,
    /// Bytes to write to the cells.
    pub cells_out: Vec<u8>,
    /// Bytes to write to HP.
    pub hp_out: Vec<u8>,
    /// Bytes to write to LP.
    pub lp_out: Vec<u8>,
    /// Bytes to write for `disperse`, `outer` and `inner`.
    pub bytes_out: Vec<u8>,
}

impl Buffers {
    /// Memory of 32,768 bytes a port. The only error is lack of memory.
    pub fn new(alloc: Global) -> Result<Buffers, AllocError> {
        Ok(Buffers {
            settings: vec![in alloc; 0; BUFFER]?,
            hp: vec![in alloc; 0; BUFFER]?,
            lp: vec![in alloc; 0; BUFFER]?,
            cells: vec![in alloc; 0; BUFFER]?,
            cells_out: vec![in alloc; 0; BUFFER]?,
            hp_out: vec![in alloc; 0; BUFFER]?,
            lp_out: vec![in alloc; 0; BUFFER]?,
            bytes_out: vec![in alloc; 0; BUFFER]?,
        })
    }
}

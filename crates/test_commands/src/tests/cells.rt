// Cells in their bytes.
use std::alloc::{AllocError, Global};
use std::process::Abort;

/// The header of a cell file of the 2K mode.
pub(crate) const HEADER: [u8; 8] = *b"DVTC\x02\x00\x00\x00";

/// The bytes of a symbol of the 2K mode.
pub(crate) const SYMBOL: usize = 8525;

/// The bytes of the cell file of a super-frame of the 2K mode.
pub(crate) const SUPER_FRAME: usize = 2_318_808;

/// The number at an index of cells.
pub(crate) fn number_at(rt: &impl Abort, cells: &[u8], at: usize) -> i16 {
    assert!(rt; at < 5_000_000 && at + 1 < cells.len());
    i16::from_be_bytes([cells[at], cells[at + 1]])
}

/// Writes a number at an index of cells.
pub(crate) fn put_number(rt: &impl Abort, cells: &mut [u8], at: usize, number: i16) {
    assert!(rt; at < 5_000_000 && at + 1 < cells.len());
    let bytes = number.to_be_bytes();
    cells[at] = bytes[0];
    cells[at + 1] = bytes[1];
}

// A number of zero bytes.
fn zeros(alloc: Global, count: usize) -> Result<Vec<u8>, AllocError> {
    vec![in alloc; 0u8; count]
}

/// The file of a super-frame with all cells and weights zero.
pub(crate) fn zero_cells(alloc: Global) -> Result<Vec<u8>, AllocError> {
    let mut cells = Vec::from_slice(alloc, HEADER.as_slice())?;
    let behind = zeros(alloc, SUPER_FRAME - 8)?;
    cells.extend_from_slice(&behind)?;
    Ok(cells)
}

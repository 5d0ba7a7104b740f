// The bytes of a cell file of the 2K mode.

/// The bytes of the header.
const HEADER: usize = 8;

/// The bytes of a cell.
const CELL: usize = 5;

/// The bytes of a symbol.
const SYMBOL: usize = 1705 * CELL;

/// The bytes of the header and of this number of symbols.
pub(crate) fn symbols(count: usize) -> usize {
    HEADER.saturating_add(count.saturating_mul(SYMBOL))
}

/// The bytes of the header, of this number of symbols and half of one more.
pub(crate) fn and_half(count: usize) -> usize {
    symbols(count).saturating_add(SYMBOL / 2)
}

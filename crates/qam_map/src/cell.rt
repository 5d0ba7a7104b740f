// A cell of an OFDM symbol.

/// The value of one carrier in one symbol, as 16384 times the standard's normalised value.
#[derive(Clone, Copy, Debug, Default, PartialEq, Eq)]
pub struct Cell {
    /// The real part.
    pub re: i16,
    /// The imaginary part.
    pub im: i16,
}

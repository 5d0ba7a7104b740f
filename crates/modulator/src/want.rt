// What a modulator wants next.

/// What a modulator wants next: a packet of the HP or of the LP stream, or to make a symbol.
#[derive(Clone, Copy, Debug, PartialEq, Eq)]
pub enum Want {
    /// The next symbol needs a packet of HP.
    Hp,
    /// It needs a packet of LP, but none of HP.
    Lp,
    /// The packets suffice for the next symbol.
    Symbol,
}

// The choices of a transmission.

/// The transmission mode: the number of carriers of an OFDM symbol (EN 300 744, 4.4).
#[derive(Clone, Copy, Debug, PartialEq, Eq)]
pub enum Mode {
    /// 1705 carriers.
    M2k,
    /// 6817 carriers.
    M8k,
}

/// The constellation of the data cells (EN 300 744, 4.3.5).
#[derive(Clone, Copy, Debug, PartialEq, Eq)]
pub enum Shape {
    /// Two bits a cell.
    Qpsk,
    /// Four bits a cell.
    Qam16,
    /// Six bits a cell.
    Qam64,
}

/// Whether two streams share the cells, and the distance of the inner points of the quadrants (EN 300 744, 4.3.4.1 and
/// 4.3.5).
#[derive(Clone, Copy, Debug, PartialEq, Eq)]
pub enum Hierarchy {
    /// One stream, no hierarchy.
    Flat,
    /// Two streams, α = 1: the levels of the constellation without a hierarchy.
    Alpha1,
    /// Two streams, α = 2.
    Alpha2,
    /// Two streams, α = 4.
    Alpha4,
}

/// The rate of the punctured inner code: input bits over coded bits (EN 300 744, 4.3.3).
#[derive(Clone, Copy, Debug, PartialEq, Eq)]
pub enum Rate {
    /// 1/2.
    R1of2,
    /// 2/3.
    R2of3,
    /// 3/4.
    R3of4,
    /// 5/6.
    R5of6,
    /// 7/8.
    R7of8,
}

/// The guard interval as a fraction of the useful symbol; it is only signalled (EN 300 744, 4.6).
#[derive(Clone, Copy, Debug, PartialEq, Eq)]
pub enum Guard {
    /// 1/32.
    G1of32,
    /// 1/16.
    G1of16,
    /// 1/8.
    G1of8,
    /// 1/4.
    G1of4,
}

/// The register of the inner code that the receiver assumes before the first symbol.
#[derive(Clone, Copy, Debug, PartialEq, Eq)]
pub enum Start {
    /// Six zeros: the cells begin with the transmission.
    Zero,
    /// Any of the 64 registers: the cells begin within the transmission.
    Any,
}

/// A transport stream of the transmission: of high priority, or of low priority, which exists only with a hierarchy.
#[derive(Clone, Copy, Debug, PartialEq, Eq)]
pub enum Stream {
    /// High priority.
    Hp,
    /// Low priority.
    Lp,
}

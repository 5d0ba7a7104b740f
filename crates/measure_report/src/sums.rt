// The sums of a measurement.

/// The remade bits of one stream in a symbol.
#[derive(Clone, Copy, Debug, Default, Drop, PartialEq, Eq)]
pub struct BitSums {
    /// The bits on the payload cells that count.
    pub bits: u64,
    /// Those where the hard decision of the received cell is wrong.
    pub wrong: u64,
}

/// The sums of a symbol compared with the cells remade from its decided bits.
#[derive(Clone, Copy, Debug, Default, Drop, PartialEq, Eq)]
pub struct SymbolSums {
    /// The payload cells with a weight of at least 1: these count.
    pub cells: u64,
    /// The payload cells of weight 0.
    pub muted: u64,
    /// The sum of `re² + im²` of the remade cells.
    pub power: u64,
    /// The sum of the squared distances of the received cells from the remade ones.
    pub error: u64,
    /// The bits of HP.
    pub hp: BitSums,
    /// The bits of LP; 0 if it is absent.
    pub lp: BitSums,
}

/// The sums of one stream in a super-frame.
#[derive(Clone, Copy, Debug, Default, Drop, PartialEq, Eq)]
pub struct StreamSums {
    /// The remade bits of its compared symbols.
    pub bits: u64,
    /// Those where the hard decisions are wrong.
    pub wrong: u64,
    /// The received outer words.
    pub words: u64,
    /// Those that were codewords.
    pub clean: u64,
    /// Those with one to eight wrong bytes, all corrected.
    pub corrected: u64,
    /// Those without a nearest codeword.
    pub bad: u64,
    /// Those without a phase.
    pub unphased: u64,
    /// The unmerged reports of the inner decoder.
    pub unmerged: u64,
    /// The bits in which the corrected words differ from their codewords.
    pub repaired: u64,
}

/// The sums of a super-frame.
#[derive(Clone, Copy, Debug, Drop, PartialEq, Eq)]
pub struct SuperFrame {
    /// Its number, from 0.
    pub number: u64,
    /// Its compared symbols.
    pub symbols: u64,
    /// Their payload cells with a weight of at least 1.
    pub cells: u64,
    /// Their payload cells of weight 0.
    pub muted: u64,
    /// The sum of `re² + im²` of the remade cells, on the cells that count.
    pub power: u64,
    /// The sum of the squared distances of the received cells from the remade ones.
    pub error: u64,
    /// The frames whose TPS word was read.
    pub tps_read: u64,
    /// The other whole frames.
    pub tps_bad: u64,
    /// The stream of high priority, or the only one.
    pub hp: StreamSums,
    /// The stream of low priority, if the transmission has one.
    pub lp: Option<StreamSums>,
}

// The counts of a reception.

use mode_set::Stream;

/// The counts of one stream.
#[derive(Clone, Copy, Debug, Default, Drop, PartialEq, Eq)]
pub struct StreamCounts {
    /// The received outer words, without those of the start-up.
    pub words: u64,
    /// Those that were codewords.
    pub clean: u64,
    /// Those with one to eight wrong bytes, all corrected.
    pub corrected: u64,
    /// Those without a nearest codeword.
    pub bad: u64,
    /// Those without a phase, which gave no packet.
    pub unphased: u64,
    /// The unmerged reports of the inner decoder.
    pub unmerged: u64,
}

/// The counts of a reception.
#[derive(Clone, Copy, Debug, Drop, PartialEq, Eq)]
pub struct Counts {
    /// The whole symbols.
    pub symbols: u64,
    /// The bytes after them.
    pub tail: u32,
    /// The frames whose TPS word was read.
    pub tps_read: u64,
    /// The other whole frames.
    pub tps_bad: u64,
    /// The stream of high priority, or the only one.
    pub hp: StreamCounts,
    /// The stream of low priority, if there is one.
    pub lp: Option<StreamCounts>,
}

/// An unmerged report of the inner decoder of a stream.
#[derive(Clone, Copy, Debug, Drop, PartialEq, Eq)]
pub struct Event {
    /// The stream.
    pub stream: Stream,
    /// The number of steps since the stream's start, including the step of the report.
    pub at: u64,
}

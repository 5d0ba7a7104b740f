// The counts of a trial.

/// The result of a trial for one stream.
#[derive(Clone, Copy, Debug, PartialEq, Eq)]
pub struct StreamReturn {
    /// The number of packets generated.
    pub packets: u32,
    /// The number of packets received, including null packets.
    pub back: u64,
    /// The sum of the bytes of these packets, modulo 2^32.
    pub sum: u32,
}

/// The counts of a trial.
#[derive(Clone, Copy, Debug, PartialEq, Eq)]
pub struct TrialCounts {
    /// The sum of the bytes of the cells fed, modulo 2^32.
    pub cells: u32,
    /// The high priority stream, or the only one.
    pub hp: StreamReturn,
    /// The low priority stream, if it exists in the transmission.
    pub lp: Option<StreamReturn>,
}

// The counts of a reception with rescue.

use rescue_words::RescueCounts;

/// The counts of one stream.
#[derive(Clone, Copy, Debug, Default, Drop, PartialEq, Eq)]
pub struct StreamCounts {
    /// The counts of its words.
    pub words: RescueCounts,
    /// The unmerged reports of the inner decoder.
    pub unmerged: u64,
}

/// The counts of a reception with rescue.
#[derive(Clone, Copy, Debug, Drop, PartialEq, Eq)]
pub struct Counts {
    /// The whole symbols.
    pub symbols: u64,
    /// The bytes after them.
    pub tail: u32,
    /// The stream of high priority, or the only one.
    pub hp: StreamCounts,
    /// The stream of low priority, if there is one.
    pub lp: Option<StreamCounts>,
}

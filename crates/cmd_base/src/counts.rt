// What a run counts, and its limits.
ghost use Rattle.std.specs.Prelude.{◌≡◌};

/// The limits of a run that are not settings.
#[derive(Clone, Copy, Debug, PartialEq, Eq)]
pub struct Limits {
    /// The most packets taken from a transport input, 1 to 100,000,000.
    pub packets: u64,
}

/// The counts of a transport input.
#[derive(Clone, Copy, Debug, PartialEq, Eq)]
pub struct Counts {
    /// The whole packets.
    pub packets: u64,
    /// The bytes after them, fewer than 188.
    pub tail: u64,
}

impl Limits {
    /// The limits of the program: 100,000,000 packets.
    pub fn shipped() -> Limits
        ensures shipped { result.packets ≡ 100000000 }
    {
        Limits {
            packets: 100_000_000,
        }
    }
}

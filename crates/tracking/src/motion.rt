// The speed of the channel's changes.

/// The assumed speed of the channel's changes from symbol to symbol. It selects the interpolation in time.
#[derive(Clone, Copy, Debug, PartialEq, Eq)]
pub enum Motion {
    /// Slow enough to average the pilots of sixteen symbols.
    Slow,
    /// So fast that the nearest pilots count most.
    Fast,
}

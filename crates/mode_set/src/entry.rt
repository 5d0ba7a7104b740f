// The parameters of super-frames.
ghost use Rattle.mode_set.specs.Kept.{IsKeptEntry};

use crate::{Hierarchy, Rate, Shape};

/// The parameters of the super-frames from a number on: constellation, hierarchy and code rates.
///
/// QPSK has no hierarchy, and `rate_lp` is present exactly with a hierarchy.
#[derive(Clone, Copy, Debug, PartialEq, Eq)]
pub struct Entry {
    /// The number of the first super-frame that has these parameters.
    pub after: u32,
    /// The constellation of the data cells.
    pub shape: Shape,
    /// Whether there are two streams.
    pub hierarchy: Hierarchy,
    /// The inner code's rate of the HP stream, or of the only one.
    pub rate_hp: Rate,
    /// The inner code's rate of the LP stream.
    pub rate_lp: Option<Rate>,
    ghost kept: { IsKeptEntry shape hierarchy rate_lp },
}

// The settings of a transmission.
ghost use Rattle.mode_set.specs.Kept.{IsKept};

use crate::{Guard, Hierarchy, Mode, Plan, Rate, Shape, Start};

/// The settings of a transmission and of its reception.
///
/// QPSK has no hierarchy, `rate_lp` is present exactly with a hierarchy, `workers` is 1 to 16 and `max_symbols` is at
/// least 1.
#[derive(Clone, Copy, Debug, PartialEq, Eq)]
pub struct Settings {
    /// The number of carriers.
    pub mode: Mode,
    /// The constellation of the data cells.
    pub shape: Shape,
    /// Whether there are two streams.
    pub hierarchy: Hierarchy,
    /// The inner code's rate of the HP stream, or of the only one.
    pub rate_hp: Rate,
    /// The inner code's rate of the LP stream.
    pub rate_lp: Option<Rate>,
    /// The signalled guard interval.
    pub guard: Guard,
    /// The signalled cell identifier, if any.
    pub cell_id: Option<u16>,
    /// The initial register of the receiver.
    pub start: Start,
    /// The most threads for decoding the outer words of a symbol, 1 to 16.
    pub workers: u8,
    /// The most OFDM symbols to send or receive.
    pub max_symbols: u32,
    /// The changes of constellation, hierarchy and rates at super-frames.
    pub plan: Plan,
    ghost kept: { IsKept shape hierarchy rate_lp workers max_symbols },
}

// A corrected cell.
use qam_map::Cell;

/// A cell after correction, and its reliability, 0 to 15.
#[derive(Clone, Copy, Debug, PartialEq, Eq)]
pub struct Tracked {
    /// The cell divided by the gain of the channel.
    pub cell: Cell,
    /// Its weight.
    pub weight: u8,
}

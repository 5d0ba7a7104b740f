// What is sent for a label.

use qam_map::Cell;

/// The point of a label and its power.
#[derive(Clone, Copy, Debug)]
pub(crate) struct Sent {
    pub(crate) point: Cell,
    pub(crate) power: u64,
}

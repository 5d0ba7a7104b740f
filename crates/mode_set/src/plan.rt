// The changes of a transmission's parameters.
ghost use Rattle.mode_set.specs.PlanList.{IsFilled};

use crate::Entry;

/// The changes of parameters at super-frames: at most 16, with numbers that rise strictly from 1 on. Contracts see it
/// as the list of its entries.
#[derive(Clone, Copy, Debug, PartialEq, Eq)]
pub struct Plan {
    // The first `count` are the entries, the others padding.
    pub(crate) entries: [Entry; 16],
    pub(crate) count: u8,
    ghost kept: { IsFilled count entries },
}

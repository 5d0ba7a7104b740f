// What is sent of a step.

/// The coded bits of a step that are sent. X goes before Y.
#[derive(Clone, Copy, Debug, PartialEq, Eq)]
pub enum Sent {
    /// X and Y.
    Both,
    /// X alone.
    OnlyX,
    /// Y alone.
    OnlyY,
}

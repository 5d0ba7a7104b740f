// The costs of one step.
ghost use Rattle.code_paths.specs.Small.{IsSmall};

/// The costs of the two coded bits of one step of the inner code: how badly each value of X and of Y fits the received
/// signal. Each is at most 4095. A punctured bit costs 0 for either value (EN 300 744, 4.3.3).
#[derive(Clone, Copy, Debug, Drop, PartialEq, Eq)]
pub struct CostPair {
    /// The cost of X being 0.
    pub x0: u16,
    /// The cost of X being 1.
    pub x1: u16,
    /// The cost of Y being 0.
    pub y0: u16,
    /// The cost of Y being 1.
    pub y1: u16,
    ghost small: { IsSmall x0 x1 y0 y1 },
}

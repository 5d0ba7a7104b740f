// Laws of the gain at a comb point, as contracts of functions with empty bodies.
ghost use Rattle.law_tracking.specs.Sizes.{PointGainsAreSmall, SumsAreSmall, TurnsAreSmall};
ghost use Rattle.law_tracking.specs.Steady.{SteadyGainsAreExact};

/// The parts of the gain at a comb point are below 2^21, for any cells and whichever symbols count. So the arithmetic
/// of channel tracking fits 64 bits.
pub fn gains_are_small()
    ensures turns { TurnsAreSmall }
    ensures sums { SumsAreSmall }
    ensures gains { PointGainsAreSmall }
{}

/// On a channel that does not change, the gain at a comb point is exactly 16 times the value of its pilot, whether the
/// channel counts as slow or fast.
pub fn steady_gains_are_exact()
    ensures { SteadyGainsAreExact }
{}

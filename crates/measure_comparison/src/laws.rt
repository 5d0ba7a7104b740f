// The laws of compared symbols, as contracts of functions that do nothing.
ghost use Rattle.measure_comparison.specs.Laws.{StandsAtFirst, MoreBitsKnown};

use measure_known_bits::laws::passing;

/// A comparer begins before the first symbol, with no known bit. More known bits do not move it.
pub fn standing()
    ensures first { StandsAtFirst }
    ensures more { MoreBitsKnown }
{
    passing();
}

// The laws of known bits, as contracts of functions that do nothing.
ghost use Rattle.measure_known_bits.specs.Laws.{NothingPassed, MoreBitsKnown, StepsAreFew, FewWait};

/// The encoder begins before the first symbol, with no known bit. More known bits do not move it.
pub fn passing()
    ensures first { NothingPassed }
    ensures more { MoreBitsKnown }
{
    symbol_parameters::laws::steps();
}

/// A symbol has at most 31,752 steps of a stream. If the encoder has passed what it could, no more bits wait than the
/// symbols from the next one on have steps.
pub fn rooms()
    ensures steps { StepsAreFew }
    ensures wait { FewWait }
{
    symbol_parameters::laws::steps();
}

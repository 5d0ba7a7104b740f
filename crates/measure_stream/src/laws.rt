// The laws of the meter of a stream, as contracts of functions that do nothing.
ghost use Rattle.measure_stream.specs.Laws.{StandsReady, RunsOn, CountsAreFew, RoomForSymbol, RoomAtEnd};

use measure_known_bits::laws::rooms;
use symbol_parameters::laws::{steps, words};

/// A meter that stands for the bits given so far is ready, also after its decoder has run a symbol.
pub fn ready()
    ensures ready { StandsReady }
    ensures runs { RunsOn }
{}

/// What a meter counts is no more than the steps that were made.
pub fn few()
    ensures counts { CountsAreFew }
{
    rooms();
    steps();
    words();
}

/// With the bits of a symbol more there is room for the known bits, if three symbols at most were not compared, and
/// also at the end.
pub fn room()
    ensures symbol { RoomForSymbol }
    ensures last { RoomAtEnd }
{
    rooms();
    steps();
}

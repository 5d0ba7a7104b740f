// Laws of the definitions, each the contract of a function that does nothing.
ghost use Rattle.bit_interleave.specs.Place.{EachPlaceHasOneBit, EachBitIsFound, BlocksAreRotated};

/// No two coded bits of a stream stand at one place of one word.
pub fn each_place_has_one_bit()
    ensures { EachPlaceHasOneBit }
{}

/// A search for the coded bit at the place of a bit finds that bit.
pub fn each_bit_is_found()
    ensures { EachBitIsFound }
{}

/// Bit i of a substream stands in that word of its block of 126 whose number and the offset of the
/// substream make i modulo 126 (the equation of EN 300 744, 4.3.4.1).
pub fn blocks_are_rotated()
    ensures { BlocksAreRotated }
{}

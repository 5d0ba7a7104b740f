//! Laws of the definitions, as contracts of functions with empty bodies.
ghost use Rattle.rescue_words.specs.Laws.{MoreByteMargins, OneRecovery, OneRescue, MoreRescued, AllRescued};

/// Margins of bits after whole bytes give the margins of bytes after these.
pub fn byte_margins()
    ensures more { MoreByteMargins }
{}

/// The recovery of a word is unique. Bytes with their margins give one list of packets and one tally, and packets
/// already written stay.
pub fn rescued()
    ensures one_recovery { OneRecovery }
    ensures one { OneRescue }
    ensures more { MoreRescued }
{
    bit_margin::laws::least_once();
}

/// The output for bytes and as many margins does not change if more of one of them follow.
pub fn receiving()
    ensures all { AllRescued }
{}

// The laws of a transmission, as contracts of functions with empty bodies.
ghost use Rattle.transmission.specs.Laws.{SymbolsAreCells, SymbolsAreLong, NoSymbol, OneSymbolMore, FrontOfSymbols};
ghost use Rattle.transmission.specs.Laws.{PartOfSymbols, TheNumberIsFound, OneLength, ConstantFrames, TooFew, Enough};
ghost use Rattle.transmission.specs.Laws.{ThePacketsAreLeast, NoPackets, PacketsGrow, PacketsOfSuperFrames};
ghost use Rattle.transmission.specs.Laws.{SameBeginning};
ghost use Rattle.transmission.specs.AgendaLaws.{WorkBegins, TakesOfHp, TakesOfLp, SendsSymbol, StopsAtLimit};
ghost use Rattle.transmission.specs.AgendaLaws.{StopsAtPacket, EndsUnrefused, EndlessIsRefused, SentSoFar, SentAtFault};

use bit_interleave::laws::each_bit_is_found;
use frame_build::symbols_follow_labels;
use mode_set::Settings;
use outer_chain::laws::sending;
use puncture::sent_bits_have_steps;
use symbol_interleave::laws::{h_is_a_permutation, places_and_words_agree};
use symbol_parameters::laws::{settings as super_frame_settings, steps, words};

/// Symbols are the bytes of their cells, five for each carrier, one symbol after another.
pub fn symbols()
    ensures cells { SymbolsAreCells }
    ensures long { SymbolsAreLong }
    ensures none { NoSymbol }
    ensures next { OneSymbolMore }
    ensures front { FrontOfSymbols }
    ensures part { PartOfSymbols }
{
    super_frame_settings();
}

/// A symbol depends only on the packets up to its own: it is the same for all streams with the same first packets,
/// including null packets after the end.
pub fn symbols_begin_alike(settings: &Settings, m: u64)
    ensures { SameBeginning settings.now m }
{
    super_frame_settings();
    steps();
    symbols_follow_labels(settings.mode, m);
    each_bit_is_found();
    h_is_a_permutation();
    places_and_words_agree();
    sent_bits_have_steps();
    sending();
}

/// The number of super-frames is the least that carries all packets of each stream and eleven words more. It may not
/// exist; without a plan it always does.
pub fn super_frames()
    ensures found { TheNumberIsFound }
    ensures constant { ConstantFrames }
    ensures one { OneLength }
    ensures too_few { TooFew }
    ensures enough { Enough }
{
    super_frame_settings();
    words();
}

/// The packets for n symbols are the fewest whose words hold the symbols' input bits; a super-frame holds whole words.
pub fn packets()
    ensures least { ThePacketsAreLeast }
    ensures none { NoPackets }
    ensures grow { PacketsGrow }
    ensures super_frames { PacketsOfSuperFrames }
{
    steps();
    words();
}

/// The order of work: it begins, takes packets, sends symbols, and stops at the first item that is refused, or
/// completes. Endless work is refused.
pub fn work()
    ensures begins { WorkBegins }
    ensures takes_hp { TakesOfHp }
    ensures takes_lp { TakesOfLp }
    ensures sends { SendsSymbol }
    ensures at_limit { StopsAtLimit }
    ensures at_packet { StopsAtPacket }
    ensures ends { EndsUnrefused }
    ensures endless { EndlessIsRefused }
    ensures so_far { SentSoFar }
    ensures at_fault { SentAtFault }
{
    packets();
}

// The laws of a link, as contracts of functions with empty bodies.
ghost use Rattle.std.specs.Prelude.{ℕ};
ghost use Rattle.law_link.specs.Counted.{AreCounted};
ghost use Rattle.law_link.specs.Laws.{NoiseLaw, NoiseIsClean, CellsAreRead, OwnAreWithin, CleanLaw, OwnAreClean};
ghost use Rattle.law_link.specs.Laws.{PacketsThenNulls};

use bit_interleave::laws::each_bit_is_found;
use code_paths::keeps_sent;
use mode_set::{Mode, symbols_have_whole_periods};
use outer_chain::laws::{bits, own_bytes, sending};
use pilots::{payload_carriers_are_numbered, symbols_have_as_many_payload_carriers};
use puncture::{lists_are_paths, steps_are_numbered, steps_send_in_order};
use reception::laws::costs;
use soft_metric::laws::{near_points_favour_their_bits, weights_tell_apart};
use symbol_interleave::laws::{h_is_a_permutation, places_and_words_agree};
use symbol_parameters::laws::{settings, steps, words};
use transmission::laws::{super_frames, symbols};

fn counted_at(mode: Mode, l: u8)
    ensures { AreCounted mode l }
{
    symbols_have_as_many_payload_carriers(mode, l);
    payload_carriers_are_numbered(mode, l);
}

/// The payload carriers of each symbol are numbered and counted. If it holds for four symbols, it holds for all: the
/// kinds of carriers repeat.
pub fn counted(mode: Mode)
    ensures { (l : ℕ) → AreCounted mode l }
{
    counted_at(mode, 0);
    counted_at(mode, 1);
    counted_at(mode, 2);
    counted_at(mode, 3);
}

/// Cells within the tolerance of a transmission decode to its packets, whatever is on the pilot and TPS carriers: for
/// each existing stream its packets, then null packets, one packet for each outer word of the super-frames except
/// eleven, and all these words are clean.
pub fn noise()
    ensures packets { NoiseLaw }
    ensures clean { NoiseIsClean }
{
    counted(Mode::M2k);
    counted(Mode::M8k);
    h_is_a_permutation();
    places_and_words_agree();
    each_bit_is_found();
    near_points_favour_their_bits();
    weights_tell_apart();
    steps_send_in_order();
    steps_are_numbered();
    lists_are_paths();
    symbols_have_whole_periods();
    settings();
    steps();
    words();
    keeps_sent();
    bits();
    sending();
    own_bytes();
    costs();
}

/// The cells of a transmission are read from its bytes, so they are within its tolerance, and a transmission decodes to
/// its own packets.
pub fn own_cells()
    ensures cells { CellsAreRead }
    ensures within { OwnAreWithin }
    ensures packets { CleanLaw }
    ensures clean { OwnAreClean }
{
    symbols();
    noise();
}

/// The packets received of a stream are those sent, then null packets.
pub fn packets_then_nulls()
    ensures { PacketsThenNulls }
{
    super_frames();
}

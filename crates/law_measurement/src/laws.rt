// The laws of a measurement, as contracts of functions with empty bodies.
ghost use Rattle.law_measurement.specs.Totals.{LinesAddUp, ClosingIsReceived};
ghost use Rattle.law_measurement.specs.Remade.{RemadeAreSent, ErrorIsFromSent};
ghost use Rattle.law_measurement.specs.Own.{NearPointsAreDecided, SymbolsAreCompared, NoiseIsMeasured, OwnIsMeasured};
ghost use Rattle.law_measurement.specs.Own.{FramesAreNear, FramesAreExact};

use bit_interleave::laws::each_bit_is_found;
use code_paths::uniqueness::existence;
use code_paths::{
    ended_once, given_begins_ended, given_grows, given_once, keeps_sent, reports_once,
};
use law_link::laws::{counted, own_cells};
use mode_set::{Mode, symbols_have_whole_periods};
use outer_chain::laws::bits;
use puncture::{lists_are_paths, sent_bits_have_steps, steps_are_numbered, steps_send_in_order};
use reception::laws::costs;
use soft_metric::laws::{near_points_favour_their_bits, weights_tell_apart};
use symbol_interleave::laws::{h_is_a_permutation, places_and_words_agree};
use symbol_parameters::laws::{settings, steps, words};

/// The counts of words and frames over all super-frames add up to those of the closing lines, which are those of a
/// reception of the same bytes.
pub fn lines_add_up()
    ensures sums { LinesAddUp }
    ensures closing { ClosingIsReceived }
{
    existence();
    given_once();
    given_grows();
    given_begins_ended();
    ended_once();
    reports_once();
    steps();
    words();
    costs();
    reception::laws::events();
    reception::laws::receptions();
    bits();
    outer_chain::laws::growth();
}

/// If the known bits of a compared symbol are the bits sent, the remade cells are the cells sent, for either start. If
/// this holds for all compared symbols of a super-frame, its error is the error against the cells sent, whatever was
/// received.
pub fn decided_cells_are_sent()
    ensures cells { RemadeAreSent }
    ensures error { ErrorIsFromSent }
{
    counted(Mode::M2k);
    counted(Mode::M8k);
    settings();
    steps();
    each_bit_is_found();
    h_is_a_permutation();
    places_and_words_agree();
    sent_bits_have_steps();
}

/// The hard decisions of a cell within the tolerance of a point are the bits of the point's label.
pub fn near_points_are_decided()
    ensures { NearPointsAreDecided }
{}

/// From start zero all symbols of whole super-frames are compared, except two before LP pauses.
pub fn symbols_are_compared()
    ensures { SymbolsAreCompared }
{
    steps();
    costs();
}

/// Cells within the tolerance of a transmission measure as free of errors: nothing is wrong, muted, corrected, bad,
/// unphased or repaired. The error is at most twice the squared tolerance for each cell. A transmission's own cells
/// have an error of 0.
pub fn transmissions_are_measured()
    ensures noise { NoiseIsMeasured }
    ensures own { OwnIsMeasured }
    ensures near_lines { FramesAreNear }
    ensures own_lines { FramesAreExact }
{
    counted(Mode::M2k);
    counted(Mode::M8k);
    symbols_have_whole_periods();
    existence();
    given_once();
    given_grows();
    given_begins_ended();
    ended_once();
    keeps_sent();
    settings();
    steps();
    costs();
    bits();
    each_bit_is_found();
    h_is_a_permutation();
    places_and_words_agree();
    sent_bits_have_steps();
    near_points_favour_their_bits();
    weights_tell_apart();
    steps_send_in_order();
    steps_are_numbered();
    lists_are_paths();
    near_points_are_decided();
    symbols_are_compared();
    own_cells();
}

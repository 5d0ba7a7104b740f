//! The sums of a symbol by hard decisions of all cells: the definition's program, slower than [`crate::sum_symbol`].
ghost use Rattle.std.specs.Prelude.{◌≡◌, ◌<◌, ◌^◌, ℕ, length, slice_index};
ghost use Rattle.spec_words.specs.Bits.{is_set};
ghost use Rattle.mode_set.specs.StreamTable.{carriers, label_bits, payload};
ghost use Rattle.measure_sums.specs.Comparing.{symbol_sums};
ghost use Rattle.measure_sums.specs.Tables.{AreLittle};

use crate::place::Constellation;
use crate::sums::{add, nothing};
use measure_report::SymbolSums;
use mode_set::Settings;
use pilots::carrier;
use qam_map::Cell;

/// The sums of symbol `l` of a frame with these parameters, beside the labels of its payload places.
///
/// `labels` has a label for each payload place, below 2^v for v bits a cell; `cells` and `weights` are those of all
/// carriers. A payload cell counts if its weight is at least 1. Bit e of a label is y_e of EN 300 744, 4.3.5.
pub fn sum_symbol(
    settings: &Settings,
    l: u8,
    labels: &[u8],
    cells: &[Cell],
    weights: &[u8],
) -> SymbolSums
    requires symbol { l < 68 }
    requires count { length labels.now ≡ payload settings.now.mode }
    requires small { (q : ℕ) → q < payload settings.now.mode
        → slice_index labels.now q < 2 ^ label_bits settings.now.shape }
    requires cells { length cells.now ≡ carriers settings.now.mode }
    requires weights { length weights.now ≡ carriers settings.now.mode }
    ensures sums { result ≡ symbol_sums
        (record {
          settings = settings.now;
          cells = cells.now;
          weights = weights.now;
          symbol = l;
          labels
              = λ q. is_set (slice_index labels.now q);
        }) }
    ensures little { AreLittle result (payload settings.now.mode) }
{
    let constellation = Constellation::new(settings.shape, settings.hierarchy);
    let mut sums = nothing();
    for q in 0..settings.mode.payload() {
        let k = carrier(settings.mode, l, q) as usize;
        let place = constellation.place(labels[q as usize], cells[k], weights[k]);
        add(&mut sums, &place);
    }
    sums
}

// The sums of a symbol.
ghost use Rattle.std.specs.Prelude.{◌≡◌, ◌+◌, ◌*◌, ◌<◌, ◌≤◌, ◌^◌, ℕ, length, slice_index};
ghost use Rattle.spec_words.specs.Bits.{is_set};
ghost use Rattle.mode_set.specs.StreamTable.{carriers, label_bits, payload};
ghost use Rattle.mode_set.specs.declared.settings.Settings.{Settings as AnySettings};
ghost use Rattle.measure_sums.specs.Comparing.{symbol_sums};
ghost use Rattle.measure_sums.specs.Parts.{sums_to, symbol_of};
ghost use Rattle.measure_sums.specs.Tables.{AreLittle};

use crate::sums::nothing;
use crate::table::PointTable;
use measure_report::SymbolSums;
use mode_set::{Mode, Settings};
use pilots::carrier;
use qam_map::Cell;

// The payload carriers of the 2K mode are repeated after this number of carriers ..
const PERIOD: usize = 1704;

// .. which have this many of them.
const PAYLOAD: usize = 1512;

// How often a symbol has the carriers of the 2K mode.
fn periods(mode: Mode) -> usize
    ensures payload { 1512 * result ≡ payload mode }
    ensures carriers { 1704 * result + 1 ≡ carriers mode }
    ensures few { result ≤ 4 }
{
    match mode {
        Mode::M2k => 1,
        Mode::M8k => 4,
    }
}

// Adds the payload places of one period.
fn sum_period(
    table: &PointTable,
    l: u8,
    period: usize,
    labels: &[u8],
    cells: &[Cell],
    weights: &[u8],
    sums: &mut SymbolSums,
)
    requires symbol { l < 68 }
    requires period { period < 4 }
    requires labels { 1512 * period + 1512 ≤ length labels.now }
    requires small { (q : ℕ) → q < length labels.now → slice_index labels.now q < 2 ^ label_bits table.now.0 }
    requires cells { 1704 * period + 1705 ≤ length cells.now }
    requires weights { 1704 * period + 1705 ≤ length weights.now }
    requires little { AreLittle sums.old (1512 * period) }
    ensures little { AreLittle sums.new (1512 * period + 1512) }
    ensures sums { (s : AnySettings) → table.now ≡ (s.shape, s.hierarchy) → 1512 * period + 1512 ≤ payload s.mode
        → sums.old ≡ sums_to (symbol_of s cells.now weights.now l labels.now) (1512 * period)
        → sums.new ≡ sums_to (symbol_of s cells.now weights.now l labels.now) (1512 * period + 1512) }
{
    for i in 0..PAYLOAD {
        let k = PERIOD * period + carrier(Mode::M2k, l, i as u32) as usize;
        table.add(labels[PAYLOAD * period + i], cells[k], weights[k], sums);
    }
}

/// The sums of symbol `l` of a frame with these parameters, beside the labels of its payload places.
///
/// `labels` has a label for each payload place, below 2^v for v bits a cell; `cells` and `weights` are those of all
/// carriers. A payload cell counts if its weight is at least 1. Bit e of a label is y_e of EN 300 744, 4.3.5.
pub fn sum_symbol(
    settings: &Settings,
    l: u8,
    labels: &[u8],
    cells: &[Cell],
    weights: &[u8],
) -> SymbolSums
    requires symbol { l < 68 }
    requires count { length labels.now ≡ payload settings.now.mode }
    requires small { (q : ℕ) → q < payload settings.now.mode
        → slice_index labels.now q < 2 ^ label_bits settings.now.shape }
    requires cells { length cells.now ≡ carriers settings.now.mode }
    requires weights { length weights.now ≡ carriers settings.now.mode }
    ensures sums { result ≡ symbol_sums
        (record {
          settings = settings.now;
          cells = cells.now;
          weights = weights.now;
          symbol = l;
          labels
              = λ q. is_set (slice_index labels.now q);
        }) }
    ensures little { AreLittle result (payload settings.now.mode) }
{
    let table = PointTable::new(settings.shape, settings.hierarchy);
    let mut sums = nothing();
    for period in 0..periods(settings.mode) {
        sum_period(&table, l, period, labels, cells, weights, &mut sums);
    }
    sums
}

// Cost pairs out of the costs of all places of a block.
ghost use Rattle.std.specs.Prelude.{◌≡◌, ◌+◌, ◌*◌, ◌<◌, ◌≤◌, ℕ, IfSome, drop, length, slice_index};
ghost use Rattle.std.specs.Prelude.{slice_index_or};
ghost use Rattle.code_paths.specs.declared.costs.CostPair.{CostPair as AnyPair};
ghost use Rattle.mode_set.specs.StreamTable.{carriers, need};
ghost use Rattle.mode_set.specs.declared.modes.Stream.TheVariants.{Hp, Lp};
ghost use Rattle.soft_metric.specs.Squares.{IsSmallPair};
ghost use Rattle.inner_chain.specs.CostTables.{AreInRuns, AreWeights, IsRead, IsRoom, IsSmallEntry, WritesPairs};
ghost use Rattle.inner_chain.specs.CostTables.{pair_at, settings_of};

use crate::cell_costs::CellCosts;
use crate::cost_entries::{block_steps, blocks};
use crate::cost_tables::CostTables;
use crate::runs::write_runs;
use conv_code::CostPair;
use mode_set::Stream;
use puncture::periods_shift;
use qam_map::Cell;

// Writes a pair for each two entries over those from number `first` on, and keeps the others: for any entries.
fn write_gathered(
    costs: &[(u16, u16)],
    entries: &[u16],
    steps: usize,
    first: usize,
    to: &mut [CostPair],
)
    requires room { first + steps ≤ length to.old }
    requires steps { 2 * steps ≤ length entries.now }
    requires few { steps ≤ 65536 }
    requires within { (k : ℕ) → k < length entries.now → slice_index entries.now k < length costs.now }
    requires small { (k : ℕ) → k < length costs.now → IsSmallPair (pair_at costs.now k) }
    ensures here { (t : ℕ) (d : AnyPair) → t < steps → IsRead costs.now entries.now t
        (slice_index_or to.new (first + t) d) }
    ensures before { (k : ℕ) (d : AnyPair) → k < first → slice_index_or to.new k d ≡ slice_index_or to.old k d }
    ensures rest { (k : ℕ) → first + steps ≤ k → drop k to.new ≡ drop k to.old }
    ensures long { length to.new ≡ length to.old }
{
    for step in 0..steps {
        let x = costs[entries[2 * step] as usize];
        let y = costs[entries[2 * step + 1] as usize];
        to[first + step] = CostPair {
            x0: x.0,
            x1: x.1,
            y0: y.0,
            y1: y.1,
        };
    }
}

// Writes a pair for each two entries over those from number `first` on, and keeps the others. `word_steps` are the
// steps of a word, if the entries are in runs.
pub(crate) fn write_pairs(
    costs: &[(u16, u16)],
    entries: &[u16],
    word_steps: Option<usize>,
    steps: usize,
    first: usize,
    to: &mut [CostPair],
)
    requires steps { length entries.now ≡ 2 * steps }
    requires few { steps ≤ 65536 }
    requires runs { IfSome word_steps (λ n. AreInRuns n entries.now) }
    requires entries { (k : ℕ) → k < length entries.now → IsSmallEntry (slice_index entries.now k) }
    requires costs { IsRoom costs.now }
    requires room { first + steps ≤ length to.old }
    ensures here { (t : ℕ) (d : AnyPair) → t < steps → IsRead costs.now entries.now t
        (slice_index_or to.new (first + t) d) }
    ensures before { (k : ℕ) (d : AnyPair) → k < first → slice_index_or to.new k d ≡ slice_index_or to.old k d }
    ensures rest { (k : ℕ) → first + steps ≤ k → drop k to.new ≡ drop k to.old }
    ensures long { length to.new ≡ length to.old }
{
    match word_steps {
        Some(number) => write_runs(costs, entries, number, first, to),
        None => write_gathered(costs, entries, steps, first, to),
    }
}

// Writes the cost pairs of both streams in symbol `l`, which has these cells and weights, over those at the front of
// `hp` and `lp`. All blocks of a symbol have the same entries.
pub(crate) fn write_symbol(
    tables: &CostTables,
    costs: &mut CellCosts,
    cells: &[Cell],
    weights: &[u8],
    l: u8,
    hp: &mut [CostPair],
    lp: &mut [CostPair],
)
    requires mode { costs.old.mode ≡ (settings_of tables.now).mode }
    requires cells { length cells.now ≡ carriers (settings_of tables.now).mode }
    requires weights { AreWeights (settings_of tables.now).mode weights.now }
    requires hp_room { need (settings_of tables.now) Hp ≤ length hp.old }
    requires lp_room { need (settings_of tables.now) Lp ≤ length lp.old }
    ensures mode { costs.new.mode ≡ costs.old.mode }
    ensures hp { WritesPairs (settings_of tables.now) cells.now weights.now l Hp (need (settings_of tables.now) Hp)
        hp.old hp.new }
    ensures lp { WritesPairs (settings_of tables.now) cells.now weights.now l Lp (need (settings_of tables.now) Lp)
        lp.old lp.new }
{
    periods_shift();
    let settings = tables.settings();
    let metric = tables.metric();
    let hp_table = tables.entries(Stream::Hp);
    let lp_table = tables.entries(Stream::Lp);
    let hp_steps = block_steps(&settings, Stream::Hp) as usize;
    let lp_steps = block_steps(&settings, Stream::Lp) as usize;
    costs.begin_symbol(weights);
    for block in 0..blocks(settings.mode) {
        costs.write(&settings, metric, cells, weights, l, block);
        let list = costs.costs();
        write_pairs(
            list,
            hp_table.0,
            hp_table.1,
            hp_steps,
            block as usize * hp_steps,
            hp,
        );
        write_pairs(
            list,
            lp_table.0,
            lp_table.1,
            lp_steps,
            block as usize * lp_steps,
            lp,
        );
    }
}

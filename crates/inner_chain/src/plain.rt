// The cost pairs of a stream bit by bit, without tables: a test compares what is faster with it.
ghost use Rattle.std.specs.Prelude.{◌≡◌, ◌+◌, ◌<◌, ◌≤◌, IsTrue, length, vec_capacity, vec_len};
ghost use Rattle.mode_set.specs.Entries.{with_entry};
ghost use Rattle.mode_set.specs.StreamTable.{carriers, has_stream, need};
ghost use Rattle.inner_chain.specs.CostPairs.{AppendsPairs};
ghost use Rattle.inner_chain.specs.CostTables.{AreWeights};

use crate::cell_costs::CellCosts;
use crate::rx::InnerRx;
use conv_code::CostPair;
use mode_set::{Carriers, Entry, Settings, Stream};
use puncture::{Depuncturer, steps_are_numbered};
use qam_map::Cell;

// Appends the cost pairs of a stream in symbol `l`, which has these cells and weights.
pub(crate) fn push_pairs(
    costs: &CellCosts,
    settings: &Settings,
    cells: &[Cell],
    weights: &[u8],
    l: u8,
    stream: Stream,
    to: &mut Vec<CostPair>,
)
    requires mode { costs.now.mode ≡ settings.now.mode }
    requires cells { length cells.now ≡ carriers settings.now.mode }
    requires weights { AreWeights settings.now.mode weights.now }
    requires spare { vec_len to.old + need settings.now stream ≤ vec_capacity to.old }
    ensures pairs { AppendsPairs settings.now cells.now weights.now l stream to.old.items to.new.items }
    ensures capacity { vec_capacity to.new ≡ vec_capacity to.old }
{
    steps_are_numbered();
    let mut steps = Depuncturer::start(settings.rate(stream));
    let mut bit = 0;
    for step in 0..settings.need(stream) {
        let needs = steps.needs() as u32;
        let first = costs.of_bit(settings, cells, weights, l, stream, bit);
        // that of the bit itself where the step has no second one
        let last = bit + needs - 1;
        let second = costs.of_bit(settings, cells, weights, l, stream, last);
        to.push_reserved(steps.pair(first, second));
        bit += needs;
    }
}

impl<M: Carriers> InnerRx<M> {
    /// Appends the cost pairs of a stream in symbol `l` of a frame, one for each step in order: of
    /// each sent bit the costs of its cell at its place by the cell's weight, and nothing for a bit
    /// that is not sent. `entry` has the parameters of the symbol.
    ///
    /// `cells` are those of all carriers of the symbol, and `weights` theirs, each at most 15. `l` is below
    /// 68, the stream exists in the symbol, and the spare of `to` has room for `steps` pairs.
    pub fn pairs(
        &mut self,
        entry: &Entry,
        cells: &[Cell],
        weights: &[u8],
        l: u8,
        stream: Stream,
        to: &mut Vec<CostPair>,
    )
        requires cells { length cells.now ≡ carriers self.old.mode }
        requires weights { AreWeights self.old.mode weights.now }
        requires symbol { l < 68 }
        requires exists { IsTrue (has_stream entry.now.hierarchy stream) }
        requires spare { vec_len to.old + need (with_entry self.old entry.now) stream ≤ vec_capacity to.old }
        ensures pairs { AppendsPairs (with_entry self.old entry.now) cells.now weights.now l stream to.old.items
            to.new.items }
        ensures settings { self.new ≡ self.old }
        ensures capacity { vec_capacity to.new ≡ vec_capacity to.old }
    {
        self.tables.turn_to(entry);
        let settings = self.tables.settings();
        push_pairs(&self.costs, &settings, cells, weights, l, stream, to);
    }
}

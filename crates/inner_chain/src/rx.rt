// From the cells of a symbol to the cost pairs of a stream.
ghost use Rattle.std.specs.Prelude.{◌≡◌, ◌<◌, ◌≤◌, IfOk, length};
ghost use Rattle.mode_set.specs.Entries.{with_entry};
ghost use Rattle.mode_set.specs.StreamTable.{carriers, need};
ghost use Rattle.mode_set.specs.declared.modes.Stream.TheVariants.{Hp, Lp};
ghost use Rattle.inner_chain.specs.CostTables.{AreWeights};
ghost use Rattle.inner_chain.specs.PairLists.{BeginsWithPairs};

use crate::cell_costs::CellCosts;
use crate::cost_pairs::write_symbol;
use crate::cost_tables::CostTables;
use conv_code::CostPair;
use mode_set::{Carriers, Entry, Settings, Stream};
use qam_map::Cell;
use std::alloc::{AllocError, Global};
use std::marker::{Model, PhantomData};
use symbol_interleave::Permutation;

/// The receiving side of the inner coding: from the cells of a symbol to the costs of the coded bits
/// of each step of a stream. It is seen as its settings, and each call is given the parameters of its
/// symbol.
#[derive(Drop)]
pub struct InnerRx<M: Carriers> {
    pub(crate) tables: CostTables,
    pub(crate) costs: CellCosts,
    of: PhantomData<M>,
}

impl<M: Carriers> Model for InnerRx<M> {
    ghost use Rattle.mode_set.specs.declared.settings.Settings.{Settings as AnySettings};
    ghost use Rattle.inner_chain.specs.CostTables.{IsRx};

    ghost Value = { AnySettings };

    ghost view = { λ r. r.tables.settings };

    ghost invariant = { λ r. IsRx M.MODE r.tables r.costs };
}

impl<M: Carriers> InnerRx<M> {
    /// The receiving side for these settings. It takes all its memory, enough for any parameters of the
    /// mode.
    pub fn new(alloc: Global, settings: &Settings) -> Result<Self, AllocError>
        requires { settings.now.mode ≡ M.MODE }
        ensures { IfOk result (λ rx. rx ≡ settings.now) }
    {
        let permutation = Permutation::<M>::new(alloc)?;
        Ok(InnerRx {
            tables: CostTables::new(alloc, settings)?,
            costs: CellCosts::new(alloc, &permutation)?,
            of: PhantomData,
        })
    }

    /// The steps of a stream in a symbol of these parameters, 0 for a stream that does not exist there.
    pub fn steps(&self, entry: &Entry, stream: Stream) -> u32
        ensures { result ≡ need (with_entry self.now entry.now) stream }
    {
        self.tables.steps(entry, stream)
    }

    /// Writes the cost pairs of both streams in symbol `l` of a frame, one for each step in order: those of
    /// HP over the front of `hp`, those of LP over the front of `lp`, none of a stream that does not exist
    /// there. What comes after them stays. The pairs are those that `pairs` appends, and the costs of the
    /// cells are found once for both streams. `entry` has the parameters of the symbol.
    ///
    /// `cells` are those of all carriers of the symbol, and `weights` theirs, each at most 15. `steps` is
    /// the number of pairs of a stream, and each slice has room for them.
    pub fn symbol_pairs(
        &mut self,
        entry: &Entry,
        cells: &[Cell],
        weights: &[u8],
        l: u8,
        hp: &mut [CostPair],
        lp: &mut [CostPair],
    )
        requires cells { length cells.now ≡ carriers self.old.mode }
        requires weights { AreWeights self.old.mode weights.now }
        requires symbol { l < 68 }
        requires hp_room { need (with_entry self.old entry.now) Hp ≤ length hp.old }
        requires lp_room { need (with_entry self.old entry.now) Lp ≤ length lp.old }
        ensures hp { BeginsWithPairs (with_entry self.old entry.now) cells.now weights.now l Hp hp.old hp.new }
        ensures lp { BeginsWithPairs (with_entry self.old entry.now) cells.now weights.now l Lp lp.old lp.new }
        ensures hp_long { length hp.new ≡ length hp.old }
        ensures lp_long { length lp.new ≡ length lp.old }
        ensures settings { self.new ≡ self.old }
    {
        self.tables.turn_to(entry);
        write_symbol(&self.tables, &mut self.costs, cells, weights, l, hp, lp);
    }
}

// The costs of all places of the words of a block.
ghost use Rattle.std.specs.Prelude.{◌≡◌, ◌+◌, ◌*◌, ◌<◌, ◌≤◌, ℕ, IfOk, IsTrue, length, slice_index};
ghost use Rattle.std.specs.Prelude.{slice_index_or};
ghost use Rattle.mode_set.specs.StreamTable.{carriers, coded, payload};
ghost use Rattle.qam_map.specs.Cells.{cell_of};
ghost use Rattle.qam_map.specs.declared.cell.Cell.{Cell as AnyCell};
ghost use Rattle.soft_metric.specs.Squares.{IsSmallPair};
ghost use Rattle.inner_chain.specs.CostPairs.{costs_of_bit};
ghost use Rattle.inner_chain.specs.CostTables.{AreCarriers, AreCosts, AreFull, AreWeights, IsRoom, IsWeightRoom};
ghost use Rattle.inner_chain.specs.CostTables.{blocks, most_places};

use crate::cost_entries::{BLOCK_WORDS, ROW, RUN_WORDS, carriers_of};
use bit_interleave::place;
use mode_set::{Carriers, Mode, Settings, Stream};
use pilots::kinds_repeat;
use qam_map::Cell;
use soft_metric::{AxisMetric, costs, weighted};
use std::alloc::{AllocError, Global};
use std::marker::Model;
use symbol_interleave::Permutation;

// The weight of a cell that counts in full.
const FULL_WEIGHT: u8 = 15;

// Whether all weights are full.
fn are_full(weights: &[u8]) -> bool
    ensures { IsTrue result → AreFull weights.now }
{
    let mut full = true;
    for k in 0..weights.len() {
        full &= weights[k] == FULL_WEIGHT;
    }
    full
}

// Writes full weights for the words of a block.
fn fill_weights(weights: &mut [u8])
    requires { length weights.old ≡ 256 }
    ensures full { (q : ℕ) → q < 252 → slice_index weights.new q ≡ 15 }
    ensures rest { (q : ℕ) → 252 ≤ q → slice_index weights.new q ≡ slice_index weights.old q }
    ensures long { length weights.new ≡ length weights.old }
{
    for q in 0..BLOCK_WORDS {
        weights[q] = FULL_WEIGHT;
    }
}

// The cells of the words of a block, by the carriers from number `first` on.
fn gather_cells(carrier_table: &[u16], first: usize, cells: &[Cell], to: &mut [Cell])
    requires words { first + 252 ≤ length carrier_table.now }
    requires carriers { (k : ℕ) → k < length carrier_table.now → slice_index carrier_table.now k < length cells.now }
    requires room { length to.old ≡ 256 }
    ensures cells { (q : ℕ) (d : AnyCell) → q < 252 → slice_index_or to.new q d
        ≡ cell_of cells.now (slice_index carrier_table.now (first + q)) }
    ensures long { length to.new ≡ length to.old }
{
    for q in 0..BLOCK_WORDS {
        to[q] = cells[carrier_table[first + q] as usize];
    }
}

// The cells of the words of a block, and their weights, by the carriers from number `first` on.
fn gather_both(
    carrier_table: &[u16],
    first: usize,
    cells: &[Cell],
    weights: &[u8],
    to: &mut [Cell],
    weights_to: &mut [u8],
)
    requires words { first + 252 ≤ length carrier_table.now }
    requires carriers { (k : ℕ) → k < length carrier_table.now → slice_index carrier_table.now k < length cells.now }
    requires weights { length weights.now ≡ length cells.now }
    requires room { length to.old ≡ 256 }
    requires weight_room { length weights_to.old ≡ 256 }
    ensures cells { (q : ℕ) (d : AnyCell) → q < 252 → slice_index_or to.new q d
        ≡ cell_of cells.now (slice_index carrier_table.now (first + q)) }
    ensures weights { (q : ℕ) → q < 252 → slice_index weights_to.new q
        ≡ slice_index weights.now (slice_index carrier_table.now (first + q)) }
    ensures rest { (q : ℕ) → 252 ≤ q → slice_index weights_to.new q ≡ slice_index weights_to.old q }
    ensures long { length to.new ≡ length to.old }
    ensures weights_long { length weights_to.new ≡ length weights_to.old }
{
    for q in 0..BLOCK_WORDS {
        let carrier = carrier_table[first + q] as usize;
        to[q] = cells[carrier];
        weights_to[q] = weights[carrier];
    }
}

// The cells of the words of a block, and their weights, by the carriers from number `first` on. Weights of which all
// are full need not be read.
fn gather(
    carrier_table: &[u16],
    first: usize,
    cells: &[Cell],
    weights: &[u8],
    full: bool,
    to: &mut [Cell],
    weights_to: &mut [u8],
)
    requires weights { length weights.now ≡ length cells.now }
    requires full { IsTrue full → AreFull weights.now }
    requires words { first + 252 ≤ length carrier_table.now }
    requires carriers { (k : ℕ) → k < length carrier_table.now → slice_index carrier_table.now k < length cells.now }
    requires room { length to.old ≡ 256 }
    requires weight_room { length weights_to.old ≡ 256 }
    ensures weights { (q : ℕ) → q < 252 → slice_index weights_to.new q
        ≡ slice_index weights.now (slice_index carrier_table.now (first + q)) }
    ensures rest { (q : ℕ) → 252 ≤ q → slice_index weights_to.new q ≡ slice_index weights_to.old q }
    ensures cells { (q : ℕ) (d : AnyCell) → q < 252 → slice_index_or to.new q d
        ≡ cell_of cells.now (slice_index carrier_table.now (first + q)) }
    ensures long { length to.new ≡ length to.old }
    ensures weights_long { length weights_to.new ≡ length weights_to.old }
{
    if full {
        gather_cells(carrier_table, first, cells, to);
        fill_weights(weights_to);
    } else {
        gather_both(carrier_table, first, cells, weights, to, weights_to);
    }
}

// The weighted costs of a coded bit of a stream in symbol `l`, which has these cells and weights.
fn bit_costs(
    carrier_table: &[u16],
    settings: &Settings,
    cells: &[Cell],
    weights: &[u8],
    l: u8,
    stream: Stream,
    bit: u32,
) -> (u16, u16)
    requires carriers { AreCarriers settings.now.mode (4 * payload settings.now.mode) carrier_table.now }
    requires cells { length cells.now ≡ carriers settings.now.mode }
    requires weights { AreWeights settings.now.mode weights.now }
    requires within { bit < coded settings.now stream }
    ensures costs { result ≡ costs_of_bit settings.now cells.now weights.now l stream bit }
    ensures small { IsSmallPair result }
{
    kinds_repeat(settings.mode, l);
    let (e, word) = place(settings.shape, settings.hierarchy, stream, bit);
    let first = (l % 4) as usize * settings.mode.payload() as usize;
    let carrier = carrier_table[first + word as usize] as usize;
    let pair = costs(settings.shape, settings.hierarchy, cells[carrier], e);
    weighted(pair, weights[carrier])
}

// Room for the costs of all places of the words of a block, and zero entries for the punctured bits of the words of a
// run.
fn room_for_costs(alloc: Global, places: usize) -> Result<Vec<(u16, u16)>, AllocError>
    requires { places ≡ most_places }
    ensures { IfOk result (λ room. IsRoom room.items) }
{
    vec![in alloc; (0u16, 0u16); places + RUN_WORDS]
}

// Room for the weights of the words. It begins with full ones: those after the words of a block stay so.
fn room_for_weights(alloc: Global) -> Result<Vec<u8>, AllocError>
    ensures { IfOk result (λ room. IsWeightRoom room.items) }
{
    vec![in alloc; FULL_WEIGHT; ROW]
}

/// The costs of all places of the words of a block, and what they are found from. It is seen as the mode,
/// whether all weights of the symbol are full, and the costs.
#[derive(Drop)]
pub(crate) struct CellCosts {
    mode: Mode,
    carrier_table: Vec<u16>,
    cells: Vec<Cell>,
    weights: Vec<u8>,
    // Whether all weights of the symbol are full.
    full: bool,
    costs: Vec<(u16, u16)>,
}

impl Model for CellCosts {
    ghost use Rattle.inner_chain.specs.CostTables.{CostsState, IsCostRoom};

    ghost Value = { CostsState };

    ghost view = { λ c. record { mode = c.mode; full = c.full; costs = c.costs.items } };

    ghost invariant = { λ c. IsCostRoom c.mode c.carrier_table.items c.cells.items c.weights.items c.costs.items };
}

impl CellCosts {
    /// Room for the costs of a block of the mode.
    pub(crate) fn new<M: Carriers>(
        alloc: Global,
        permutation: &Permutation<M>,
    ) -> Result<Self, AllocError>
        ensures { IfOk result (λ costs. costs.mode ≡ M.MODE) }
    {
        let mode = M::MODE;
        let carrier_table = carriers_of(alloc, permutation)?;
        let cells = vec![in alloc; Cell { re: 0, im: 0 }; ROW]?;
        let weights = room_for_weights(alloc)?;
        let costs = room_for_costs(alloc, 6 * ROW)?;
        Ok(CellCosts {
            mode,
            carrier_table,
            cells,
            weights,
            full: false,
            costs,
        })
    }

    /// Begins a symbol of these weights: `write` need not read them if all are full.
    pub(crate) fn begin_symbol(&mut self, weights: &[u8])
        ensures full { IsTrue self.new.full → AreFull weights.now }
        ensures mode { self.new.mode ≡ self.old.mode }
    {
        self.full = are_full(weights);
    }

    /// Writes the weighted costs of all places of the words of a block of symbol `l`, which has these cells and
    /// weights.
    pub(crate) fn write(
        &mut self,
        settings: &Settings,
        metric: &AxisMetric,
        cells: &[Cell],
        weights: &[u8],
        l: u8,
        block: u32,
    )
        requires mode { self.old.mode ≡ settings.now.mode }
        requires metric { metric.now ≡ (settings.now.shape, settings.now.hierarchy) }
        requires cells { length cells.now ≡ carriers settings.now.mode }
        requires weights { AreWeights settings.now.mode weights.now }
        requires full { IsTrue self.old.full → AreFull weights.now }
        requires block { block < blocks settings.now.mode }
        ensures mode { self.new.mode ≡ self.old.mode }
        ensures full { self.new.full ≡ self.old.full }
        ensures costs { AreCosts settings.now cells.now weights.now l block self.new.costs }
        ensures room { IsRoom self.new.costs }
    {
        kinds_repeat(self.mode, l);
        let first = (l % 4) as usize * self.mode.payload() as usize;
        gather(
            &self.carrier_table,
            first + BLOCK_WORDS * block as usize,
            cells,
            weights,
            self.full,
            &mut self.cells,
            &mut self.weights,
        );
        metric.write_weighted_costs(&self.cells, &self.weights, &mut self.costs);
    }

    /// The costs that were written last.
    pub(crate) fn costs(&self) -> &[(u16, u16)]
        ensures { result.now ≡ self.now.costs }
    {
        &self.costs
    }

    /// The weighted costs of a coded bit of a stream in symbol `l`, which has these cells and weights.
    pub(crate) fn of_bit(
        &self,
        settings: &Settings,
        cells: &[Cell],
        weights: &[u8],
        l: u8,
        stream: Stream,
        bit: u32,
    ) -> (u16, u16)
        requires mode { self.now.mode ≡ settings.now.mode }
        requires cells { length cells.now ≡ carriers settings.now.mode }
        requires weights { AreWeights settings.now.mode weights.now }
        requires within { bit < coded settings.now stream }
        ensures costs { result ≡ costs_of_bit settings.now cells.now weights.now l stream bit }
        ensures small { IsSmallPair result }
    {
        bit_costs(
            &self.carrier_table,
            settings,
            cells,
            weights,
            l,
            stream,
            bit,
        )
    }
}

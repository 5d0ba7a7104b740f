// The bytes of the cells that carriers send: those of all labels of a constellation, and the others.
ghost use Rattle.std.specs.Prelude.{◌≡◌, ◌^◌, ◌<◌, ◌≤◌, ◌⊎◌, ℕ, [], pos, get_or, length, take};
ghost use Rattle.mode_set.specs.StreamTable.{label_bits};
ghost use Rattle.qam_map.specs.Points.{map_cell};
ghost use Rattle.frame_build.specs.Symbol.{bits_of, real, sent_bytes};
ghost use Rattle.frame_build.specs.State.{ArePlaces, AreWider, IsCellTable, IsLabelTable, bytes_sent, other_cells};
ghost use Rattle.frame_build.specs.State.{other_places};

use crate::carrier_content::CarrierContent;
use crate::five_bytes::cell_bytes;
use mode_set::{Carriers, Hierarchy, Shape};
use qam_map::{Cell, map};

fn on_real_axis(value: i16, opposite: bool) -> Cell
    requires { value ≡ pos 21845 ⊎ value ≡ pos 16384 }
    ensures { (n : ℕ) → value ≡ pos n → result ≡ real n opposite }
{
    Cell {
        re: if opposite { -value } else { value },
        im: 0,
    }
}

// What is sent counts whole.
#[tactic(auto, unfolding(crate::specs::Symbol::sent_bytes))]
fn bytes_of(cell: Cell) -> [u8; 5]
    ensures { result ≡ sent_bytes cell }
{
    cell_bytes(cell, 15)
}

fn label_count(shape: Shape) -> u8
    ensures count { result ≡ 2 ^ label_bits shape }
    ensures few { result ≤ 64 }
{
    match shape {
        Shape::Qpsk => 4,
        Shape::Qam16 => 16,
        Shape::Qam64 => 64,
    }
}

// The bytes of the cells of all labels of a constellation, by label.
fn label_cells(shape: Shape, hierarchy: Hierarchy) -> [[u8; 5]; 72]
    ensures { IsLabelTable shape hierarchy result (2 ^ label_bits shape) }
{
    let mut cells = [[0; 5]; 72];
    for label in 0..label_count(shape) {
        cells[label as usize] = bytes_of(map(shape, hierarchy, label));
    }
    cells
}

// What carriers send that send no label: as it is, and where the TPS cells are turned.
fn other_cells() -> [[u8; 5]; 8]
    ensures { result ≡ other_cells }
{
    let pilot = bytes_of(on_real_axis(21845, false));
    let opposite_pilot = bytes_of(on_real_axis(21845, true));
    let signalling = bytes_of(on_real_axis(16384, false));
    let opposite_signalling = bytes_of(on_real_axis(16384, true));
    [
        pilot,
        opposite_pilot,
        signalling,
        opposite_signalling,
        pilot,
        opposite_pilot,
        opposite_signalling,
        signalling,
    ]
}

// The bytes of all cells that a carrier may send, those of the labels first.
fn all_cells(shape: Shape, hierarchy: Hierarchy) -> [[u8; 5]; 72]
    ensures { IsCellTable shape hierarchy result }
{
    let mut cells = label_cells(shape, hierarchy);
    cells[64..72].copy_from_slice(&other_cells());
    cells
}

// Five bytes and three zeros.
fn eight_of(five: [u8; 5]) -> [u8; 8]
    ensures { take 5 result ≡ five }
{
    [five[0], five[1], five[2], five[3], five[4], 0, 0, 0]
}

// The cells in eight bytes each, as a processor copies them at once.
fn widened(cells: &[[u8; 5]; 72]) -> [[u8; 8]; 72]
    ensures { AreWider cells.now result 72 }
{
    let mut wide = [[0; 8]; 72];
    for place in 0..72 {
        wide[place] = eight_of(cells[place]);
    }
    wide
}

// The places of the cells that belong to no label, by their indices.
pub(crate) fn other_places(turned: bool) -> [u8; 4]
    ensures { result ≡ other_places turned }
{
    if turned {
        [68, 69, 70, 71]
    } else {
        [64, 65, 66, 67]
    }
}

// The places of the cells by their indices: a label's is the label, then come the four other contents.
pub(crate) fn places<M: Carriers>(labels: &[u8], turned: bool) -> [u8; 6052]
    requires count { length labels.now ≡ M.NMAX }
    ensures { ArePlaces M.MODE turned labels.now result }
{
    let mut places = [0; 6052];
    let number = labels.len();
    places[..number].copy_from_slice(labels);
    places[number..number + 4].copy_from_slice(&other_places(turned));
    places
}

// The bytes of all cells that a carrier may send, for the constellation of the symbol that was sent last. A
// carrier's cell is found by an index, with no jump by what the carrier sends.
#[derive(Drop)]
pub(crate) struct CellTable {
    pub shape: Shape,
    pub hierarchy: Hierarchy,
    cells: [[u8; 5]; 72],
    wide: [[u8; 8]; 72],
    ghost table: { IsCellTable shape hierarchy cells },
    ghost wider: { AreWider cells wide 72 },
}

impl CellTable {
    pub(crate) fn new(shape: Shape, hierarchy: Hierarchy) -> Self
        ensures shape { result.shape ≡ shape }
        ensures hierarchy { result.hierarchy ≡ hierarchy }
    {
        let cells = all_cells(shape, hierarchy);
        CellTable {
            shape,
            hierarchy,
            cells,
            wide: widened(&cells),
        }
    }

    // Turns the table to a constellation. It is written anew only where that is another.
    pub(crate) fn turn_to(&mut self, shape: Shape, hierarchy: Hierarchy)
        ensures shape { self.new.shape ≡ shape }
        ensures hierarchy { self.new.hierarchy ≡ hierarchy }
    {
        if self.shape == shape && self.hierarchy == hierarchy {
            return;
        }
        *self = CellTable::new(shape, hierarchy);
    }

    // The bytes of a carrier that sends this, after those that sent the first `next` labels.
    pub(crate) fn bytes(
        &self,
        source: CarrierContent,
        turned: bool,
        labels: &[u8],
        next: usize,
    ) -> [u8; 5]
        requires next { source ≡ CarrierContent.Label → next < length labels.now }
        requires small { source ≡ CarrierContent.Label → get_or labels.now next 0 < 2 ^ label_bits self.now.shape }
        ensures { result ≡ bytes_sent source turned (sent_bytes
            (map_cell self.now.shape self.now.hierarchy (bits_of labels.now next))) }
    {
        let place = match source {
            CarrierContent::Label => labels[next] as usize,
            CarrierContent::Pilot
            | CarrierContent::OppositePilot
            | CarrierContent::Signalling
            | CarrierContent::OppositeSignalling => source.place(turned),
        };
        self.cells[place]
    }

    // The cell of an index, whose bytes are the first five.
    pub(crate) fn wide(&self, places: &[u8], index: usize) -> [u8; 8]
        requires index { index < length places.now }
        requires place { get_or places.now index 0 < 72 }
        ensures { take 5 result ≡ get_or self.now.cells (get_or places.now index 0) [] }
    {
        self.wide[places[index] as usize]
    }

    // The bytes of the cell of an index.
    pub(crate) fn five(&self, places: &[u8], index: usize) -> [u8; 5]
        requires index { index < length places.now }
        requires place { get_or places.now index 0 < 72 }
        ensures { result ≡ get_or self.now.cells (get_or places.now index 0) [] }
    {
        self.cells[places[index] as usize]
    }
}

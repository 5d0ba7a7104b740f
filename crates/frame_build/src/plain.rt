//! Cells one by one, without tables of carriers: from bytes, and to bytes. Tests compare what is faster with it.
ghost use Rattle.std.specs.Prelude.{◌≡◌, ℕ, ◌+◌, ◌*◌, ◌%◌, ◌^◌, ◌<◌, ◌≤◌, ◌++◌, get_or, length, vec_len, vec_capacity};
ghost use Rattle.mode_set.specs.Entries.{with_entry};
ghost use Rattle.mode_set.specs.StreamTable.{label_bits};
ghost use Rattle.frame_build.specs.Symbol.{bits_of, cell_from, cells_from, weight_from, weights_from};
ghost use Rattle.frame_build.specs.Announcing.{announcing_bytes};

use crate::SymbolOut;
use crate::carrier_content::source_at;
use crate::cell_table::CellTable;
use crate::five_bytes::push_five;
use crate::tps_sign::turned_at;
use byteorder::{BigEndian, ByteOrder};
use mode_set::{Carriers, Entry, Settings};
use pilots::payload_carriers_are_numbered;
use qam_map::Cell;

// The cell in the first four of five bytes.
pub(crate) fn read_cell(bytes: &[u8], k: usize) -> Cell
    requires { 5 * k + 5 ≤ length bytes.now }
    ensures { result ≡ cell_from bytes.now k }
{
    Cell {
        re: BigEndian::read_i16(&bytes[5 * k..]),
        im: BigEndian::read_i16(&bytes[5 * k + 2..]),
    }
}

// The weight in the fifth of them.
#[tactic(auto, unfolding(crate::specs::Symbol::weight_from))]
pub(crate) fn read_weight(bytes: &[u8], k: usize) -> u8
    requires { 5 * k + 5 ≤ length bytes.now }
    ensures { result ≡ weight_from bytes.now k }
{
    bytes[5 * k + 4].min(15)
}

/// Reads the cells of all carriers and their weights, as [`SymbolIn`](crate::SymbolIn) does.
///
/// There are five bytes for each cell, and as many weights as cells.
pub fn read_symbol(bytes: &[u8], cells: &mut [Cell], weights: &mut [u8])
    requires bytes { length bytes.now ≡ 5 * length cells.old }
    requires weights { length weights.old ≡ length cells.old }
    ensures cells { cells.new ≡ cells_from bytes.now (length cells.old) }
    ensures weights { weights.new ≡ weights_from bytes.now (length cells.old) }
{
    for k in 0..cells.len() {
        cells[k] = read_cell(bytes, k);
        weights[k] = read_weight(bytes, k);
    }
}

// Appends symbol `number` of a super-frame: its payload carriers carry the labels, and its TPS cells
// announce the settings of the next super-frame. The plain program: it finds out what each carrier sends.
fn push_symbol<M: Carriers>(
    settings: &Settings,
    next: &Settings,
    number: u16,
    label_cells: &CellTable,
    labels: &[u8],
    to: &mut Vec<u8>,
)
    requires mode { settings.now.mode ≡ M.MODE }
    requires number { number < 272 }
    requires shape { label_cells.now.shape ≡ settings.now.shape }
    requires hierarchy { label_cells.now.hierarchy ≡ settings.now.hierarchy }
    requires count { length labels.now ≡ M.NMAX }
    requires small { (q : ℕ) → q < M.NMAX → get_or labels.now q 0 < 2 ^ label_bits settings.now.shape }
    requires spare { vec_len to.old + 5 * M.K ≤ vec_capacity to.old }
    ensures bytes { to.new.items ≡ to.old.items ++ announcing_bytes settings.now next.now number (bits_of labels.now) }
    ensures len { vec_len to.new ≡ vec_len to.old + 5 * M.K }
    ensures capacity { vec_capacity to.new ≡ vec_capacity to.old }
{
    let l = (number % 68) as u8;
    payload_carriers_are_numbered(M::MODE, l);
    let turned = turned_at(next, number);
    let mut sent = 0;
    for k in 0..M::K {
        let source = source_at::<M>(l, k);
        push_five(label_cells.bytes(source, turned, labels, sent), to);
        sent = source.after(sent);
    }
}

impl<M: Carriers> SymbolOut<M> {
    /// Appends the next symbol, whose payload carriers carry the labels in rising order: bit e of a
    /// label is y_e of EN 300 744, 4.3.5. `now` has the parameters of the symbol, and its TPS cells
    /// announce those of `next`, the next super-frame's. The spare of `to` has room for the five bytes of
    /// each carrier.
    pub fn write(&mut self, now: &Entry, next: &Entry, labels: &[u8], to: &mut Vec<u8>)
        requires count { length labels.now ≡ M.NMAX }
        requires small { (q : ℕ) → q < M.NMAX → get_or labels.now q 0 < 2 ^ label_bits now.now.shape }
        requires spare { vec_len to.old + 5 * M.K ≤ vec_capacity to.old }
        ensures bytes { to.new.items ≡ to.old.items ++ announcing_bytes (with_entry self.old.settings now.now)
            (with_entry self.old.settings next.now) self.old.number (bits_of labels.now) }
        ensures len { vec_len to.new ≡ vec_len to.old + 5 * M.K }
        ensures capacity { vec_capacity to.new ≡ vec_capacity to.old }
        ensures settings { self.new.settings ≡ self.old.settings }
        ensures number { self.new.number ≡ (self.old.number + 1) % 272 }
    {
        self.label_cells.turn_to(now.shape, now.hierarchy);
        let present = self.settings.with_entry(now);
        let coming = self.settings.with_entry(next);
        push_symbol::<M>(
            &present,
            &coming,
            self.number,
            &self.label_cells,
            labels,
            to,
        );
        self.number = (self.number + 1) % 272;
    }
}

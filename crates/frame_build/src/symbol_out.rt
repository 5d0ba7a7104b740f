// From labels to the bytes of a symbol.
ghost use Rattle.std.specs.Prelude.{◌≡◌, ℕ, ◌+◌, ◌*◌, ◌%◌, ◌^◌, ◌<◌, get_or, length};
ghost use Rattle.mode_set.specs.Entries.{with_entry};
ghost use Rattle.mode_set.specs.StreamTable.{carriers, label_bits};
ghost use Rattle.symbol_interleave.specs.Carried.{is_odd};
ghost use Rattle.frame_build.specs.Symbol.{bits_of};
ghost use Rattle.frame_build.specs.Announcing.{announcing_bytes};
ghost use Rattle.frame_build.specs.State.{AreAllIndices, AreIndices};
ghost use Rattle.frame_build.specs.Words.{carried_bits};

use crate::carrier_content::indices;
use crate::cell_table::{CellTable, places};
use crate::put_cells::put_cells;
use crate::tps_sign::{FrameWord, turned_at, turned_by};
use crate::word_carriers::WordCarriers;
use mode_set::{Carriers, Entry, Settings};
use pilots::{kinds_repeat, payload_carriers_are_numbered};
use std::marker::{Model, PhantomData};
use tps_word::TpsWord;

// The indices of the cells of symbol `l`, which are those of the symbol at its place among four.
fn indices_of<M: Carriers>(indices: &[[u16; 6817]; 4], l: u8) -> &[u16; 6817]
    requires symbol { l < 68 }
    requires indices { AreAllIndices M.MODE indices.now }
    ensures { AreIndices M.MODE l result.now (carriers M.MODE) }
{
    kinds_repeat(M::MODE, l);
    &indices[(l % 4) as usize]
}

// Writes symbol `number` of a super-frame over a slice of its length. `indices` are those of its cells.
fn put_symbol<M: Carriers>(
    settings: &Settings,
    next: &Settings,
    number: u16,
    label_cells: &CellTable,
    indices: &[u16; 6817],
    labels: &[u8],
    to: &mut [u8],
)
    requires mode { settings.now.mode ≡ M.MODE }
    requires number { number < 272 }
    requires shape { label_cells.now.shape ≡ settings.now.shape }
    requires hierarchy { label_cells.now.hierarchy ≡ settings.now.hierarchy }
    requires indices { AreIndices M.MODE (number % 68) indices.now (carriers M.MODE) }
    requires count { length labels.now ≡ M.NMAX }
    requires small { (q : ℕ) → q < M.NMAX → get_or labels.now q 0 < 2 ^ label_bits settings.now.shape }
    requires long { length to.old ≡ 5 * M.K }
    ensures bytes { to.new ≡ announcing_bytes settings.now next.now number (bits_of labels.now) }
{
    payload_carriers_are_numbered(M::MODE, (number % 68) as u8);
    let places = places::<M>(labels, turned_at(next, number));
    put_cells::<M>(label_cells, &places, indices, to);
}

/// Builds the symbols of a transmission one after another: labels on the payload carriers, pilots and
/// TPS cells on the others (EN 300 744, 4.4 to 4.6).
///
/// It is seen as its settings and the number of the next symbol in its super-frame of 272 symbols,
/// which has four frames of 68. Each call is given the parameters of its symbol.
#[derive(Drop)]
pub struct SymbolOut<M: Carriers> {
    pub(crate) settings: Settings,
    pub(crate) number: u16,
    pub(crate) label_cells: CellTable,
    // The indices of the cells of the symbols 0 to 3, which the others repeat.
    indices: [[u16; 6817]; 4],
    // The TPS word of the last symbol.
    word: FrameWord,
    of: PhantomData<M>,
}

impl<M: Carriers> Model for SymbolOut<M> {
    ghost use Rattle.frame_build.specs.State.{IsReady, NextSymbol};

    ghost Value = { NextSymbol };

    ghost view = { λ o. record { settings = o.settings; number = o.number } };

    ghost invariant = { λ o. IsReady M.MODE o.settings o.number o.indices };
}

impl<M: Carriers> SymbolOut<M> {
    /// The builder before the first symbol of a super-frame.
    pub fn new(settings: &Settings) -> Self
        requires { settings.now.mode ≡ M.MODE }
        ensures settings { result.settings ≡ settings.now }
        ensures first { result.number ≡ 0 }
    {
        SymbolOut {
            settings: *settings,
            number: 0,
            label_cells: CellTable::new(settings.shape, settings.hierarchy),
            indices: [
                indices::<M>(0),
                indices::<M>(1),
                indices::<M>(2),
                indices::<M>(3),
            ],
            word: FrameWord::new(TpsWord::signalled(settings, 1)),
            of: PhantomData,
        }
    }

    /// Writes the next symbol over the slice, which has the five bytes of each carrier: the bytes that
    /// [`write`](SymbolOut::write) appends for the same parameters and labels. It is the faster of the two.
    pub fn write_into(&mut self, now: &Entry, next: &Entry, labels: &[u8], to: &mut [u8])
        requires count { length labels.now ≡ M.NMAX }
        requires small { (q : ℕ) → q < M.NMAX → get_or labels.now q 0 < 2 ^ label_bits now.now.shape }
        requires long { length to.old ≡ 5 * M.K }
        ensures bytes { to.new ≡ announcing_bytes (with_entry self.old.settings now.now)
            (with_entry self.old.settings next.now) self.old.number (bits_of labels.now) }
        ensures settings { self.new.settings ≡ self.old.settings }
        ensures number { self.new.number ≡ (self.old.number + 1) % 272 }
    {
        let present = self.settings.with_entry(now);
        let announced = self.settings.with_entry(next);
        self.label_cells.turn_to(present.shape, present.hierarchy);
        put_symbol::<M>(
            &present,
            &announced,
            self.number,
            &self.label_cells,
            indices_of::<M>(&self.indices, (self.number % 68) as u8),
            labels,
            to,
        );
        self.number = (self.number + 1) % 272;
    }

    /// Writes the next symbol over the slice, which has the five bytes of each carrier. Its payload carriers carry the
    /// labels of its words, given before the symbol interleaver: the bytes that [`write`](SymbolOut::write) appends for
    /// the same labels in the order of the carriers. It is the fastest of the three.
    pub fn write_words(
        &mut self,
        now: &Entry,
        next: &Entry,
        words: &[u8],
        carriers: &mut WordCarriers<M>,
        to: &mut [u8],
    )
        requires count { length words.now ≡ M.NMAX }
        requires small { (w : ℕ) → w < M.NMAX → get_or words.now w 0 < 2 ^ label_bits now.now.shape }
        requires long { length to.old ≡ 5 * M.K }
        ensures bytes { to.new ≡ announcing_bytes (with_entry self.old.settings now.now)
            (with_entry self.old.settings next.now) self.old.number
            (carried_bits M.MODE (is_odd self.old.number) words.now) }
        ensures settings { self.new.settings ≡ self.old.settings }
        ensures number { self.new.number ≡ (self.old.number + 1) % 272 }
    {
        let number = self.number;
        let announced = self.settings.with_entry(next);
        self.word
            .turn_to(TpsWord::signalled(&announced, (number / 68) as u8 + 1));
        let turned = turned_by(&self.word.bits, number % 68);
        self.label_cells.turn_to(now.shape, now.hierarchy);
        carriers.put(number, turned, &self.label_cells, words, to);
        self.number = (number + 1) % 272;
    }
}

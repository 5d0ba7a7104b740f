// Where the carriers of a symbol find the labels of its words.
ghost use Rattle.std.specs.Prelude.{◌≡◌, ℕ, ◌+◌, ◌*◌, ◌%◌, ◌^◌, ◌<◌, ◌≤◌, IfOk, get_or, length, vec_capacity, vec_len};
ghost use Rattle.mode_set.specs.StreamTable.{carriers, label_bits, payload};
ghost use Rattle.mode_set.specs.declared.settings.Settings.{Settings as AnySettings};
ghost use Rattle.tps_word.specs.Tps.{signalled, tps_word};
ghost use Rattle.symbol_interleave.specs.Carried.{is_odd};
ghost use Rattle.frame_build.specs.Symbol.{frame_of};
ghost use Rattle.frame_build.specs.Announcing.{announcing_bytes};
ghost use Rattle.frame_build.specs.State.{ArePlaces, is_turned};
ghost use Rattle.frame_build.specs.Words.{AreWordIndices, IsWordIndex, carried_bits};

use crate::carrier_content::index_at;
use crate::cell_table::{CellTable, other_places};
use crate::put_cells::put_cells;
use mode_set::{Carriers, Mode};
use pilots::{kinds_repeat, payload_carriers_are_numbered};
use std::alloc::{AllocError, Global};
use std::marker::{Model, PhantomData};
use symbol_interleave::Permutation;

// The index of the cell of carrier `k` of symbol `l` in the order of words.
fn word_index_at<M: Carriers>(permutation: &Permutation<M>, l: u8, k: u32) -> u16
    requires symbol { l < 68 }
    requires carrier { k < M.K }
    ensures { IsWordIndex M.MODE l k result }
{
    payload_carriers_are_numbered(M::MODE, l);
    let index = index_at::<M>(l, k);
    if (index as u32) < M::NMAX {
        permutation.source(l % 2 == 1, index as u32) as u16
    } else {
        index
    }
}

// The indices of the cells of symbol `l` in the order of words.
fn word_indices<M: Carriers>(
    alloc: Global,
    permutation: &Permutation<M>,
    l: u8,
) -> Result<Vec<u16>, AllocError>
    requires { l < 68 }
    ensures { IfOk result (λ list. AreWordIndices M.MODE l list.items (carriers M.MODE)) }
{
    let mut list = Vec::with_capacity(alloc, M::K as usize)?;
    for k in 0..M::K {
        list.push_reserved(word_index_at::<M>(permutation, l, k));
    }
    Ok(list)
}

// Writes the places of the cells by their indices: a label's is the label, then come the four other contents.
fn write_places<M: Carriers>(labels: &[u8], turned: bool, places: &mut [u8])
    requires count { length labels.now ≡ M.NMAX }
    requires room { length places.old ≡ payload M.MODE + 4 }
    ensures long { length places.new ≡ length places.old }
    ensures places { ArePlaces M.MODE turned labels.now places.new }
{
    let number = labels.len();
    places[..number].copy_from_slice(labels);
    places[number..number + 4].copy_from_slice(&other_places(turned));
}

// Writes symbol `number` of a super-frame over a slice of its length. `indices` are those of its cells, and `turned`
// says whether its TPS cells are turned.
fn put_words<M: Carriers>(
    label_cells: &CellTable,
    number: u16,
    turned: bool,
    indices: &[u16],
    words: &[u8],
    places: &mut [u8],
    to: &mut [u8],
)
    requires number { number < 272 }
    requires indices { AreWordIndices M.MODE (number % 68) indices.now (carriers M.MODE) }
    requires count { length words.now ≡ M.NMAX }
    requires small { (w : ℕ) → w < M.NMAX → get_or words.now w 0 < 2 ^ label_bits label_cells.now.shape }
    requires room { length places.old ≡ payload M.MODE + 4 }
    requires long { length to.old ≡ 5 * M.K }
    ensures room { length places.new ≡ length places.old }
    ensures bytes { (now next : AnySettings) → now.mode ≡ M.MODE → label_cells.now.shape ≡ now.shape
        → label_cells.now.hierarchy ≡ now.hierarchy
        → turned ≡ is_turned (tps_word (signalled next (frame_of number))) (number % 68)
        → to.new ≡ announcing_bytes now next number (carried_bits M.MODE (is_odd number) words.now) }
{
    payload_carriers_are_numbered(M::MODE, (number % 68) as u8);
    write_places::<M>(words, turned, places);
    put_cells::<M>(label_cells, places, indices, to);
}

/// The table by which the carriers of a mode's symbols send the labels of the symbols' words: it has the symbol
/// interleaver in it, so labels need no pass of their own into the order of the carriers (EN 300 744, 4.3.4.2 and
/// 4.4). It is seen as the mode.
#[derive(Drop)]
pub struct WordCarriers<M: Carriers> {
    // The indices of the cells of the symbols 0 to 3, which the others repeat.
    first: Vec<u16>,
    second: Vec<u16>,
    third: Vec<u16>,
    fourth: Vec<u16>,
    // The places of the cells of the last symbol by their indices.
    places: Vec<u8>,
    of: PhantomData<M>,
}

impl<M: Carriers> Model for WordCarriers<M> {
    ghost use Rattle.mode_set.specs.declared.modes.Mode.{Mode};
    ghost use Rattle.frame_build.specs.Words.{IsWordTable};

    ghost Value = { Mode };

    ghost view = { λ _. M.MODE };

    ghost invariant = { λ c. IsWordTable M.MODE c.first.items c.second.items c.third.items c.fourth.items
        c.places.items };
}

// The indices of symbol `l`: those of the symbol at its place among four.
fn indices_of<'a>(
    mode: Mode,
    l: u8,
    first: &'a [u16],
    second: &'a [u16],
    third: &'a [u16],
    fourth: &'a [u16],
) -> &'a [u16]
    requires symbol { l < 68 }
    requires first { AreWordIndices mode 0 first.now (carriers mode) }
    requires second { AreWordIndices mode 1 second.now (carriers mode) }
    requires third { AreWordIndices mode 2 third.now (carriers mode) }
    requires fourth { AreWordIndices mode 3 fourth.now (carriers mode) }
    ensures { AreWordIndices mode l result.now (carriers mode) }
{
    kinds_repeat(mode, l);
    match l % 4 {
        0 => first,
        1 => second,
        2 => third,
        _ => fourth,
    }
}

impl<M: Carriers> WordCarriers<M> {
    /// Makes the table. It takes memory for four numbers a carrier and one byte a payload carrier.
    pub fn new(alloc: Global) -> Result<Self, AllocError>
        ensures { IfOk result (λ table. table ≡ M.MODE) }
    {
        let permutation = Permutation::<M>::new(alloc)?;
        Ok(WordCarriers {
            first: word_indices(alloc, &permutation, 0)?,
            second: word_indices(alloc, &permutation, 1)?,
            third: word_indices(alloc, &permutation, 2)?,
            fourth: word_indices(alloc, &permutation, 3)?,
            places: vec![in alloc; 0u8; M::NMAX as usize + 4]?,
            of: PhantomData,
        })
    }

    // Writes symbol `number` of a super-frame over a slice of its length. `turned` says whether its TPS cells are
    // turned.
    pub(crate) fn put(
        &mut self,
        number: u16,
        turned: bool,
        label_cells: &CellTable,
        words: &[u8],
        to: &mut [u8],
    )
        requires number { number < 272 }
        requires count { length words.now ≡ M.NMAX }
        requires small { (w : ℕ) → w < M.NMAX → get_or words.now w 0 < 2 ^ label_bits label_cells.now.shape }
        requires long { length to.old ≡ 5 * M.K }
        ensures bytes { (now next : AnySettings) → now.mode ≡ M.MODE → label_cells.now.shape ≡ now.shape
            → label_cells.now.hierarchy ≡ now.hierarchy
            → turned ≡ is_turned (tps_word (signalled next (frame_of number))) (number % 68)
            → to.new ≡ announcing_bytes now next number (carried_bits M.MODE (is_odd number) words.now) }
    {
        let indices = indices_of(
            M::MODE,
            (number % 68) as u8,
            &self.first,
            &self.second,
            &self.third,
            &self.fourth,
        );
        put_words::<M>(
            label_cells,
            number,
            turned,
            indices,
            words,
            &mut self.places,
            to,
        );
    }
}

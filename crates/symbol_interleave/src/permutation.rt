// The permutation of a mode, both ways.
ghost use Rattle.std.specs.Prelude.{◌≡◌, ◌<◌, IfOk, slice_index, false};
ghost use Rattle.mode_set.specs.StreamTable.{payload};
ghost use Rattle.symbol_interleave.specs.Carried.{carried, h as list_h, place_of_word};

use crate::addresses::{inverse, places};
use mode_set::Carriers;
use std::alloc::{AllocError, Global};
use std::marker::{Model, PhantomData};

/// The permutation H of the mode `M`, from two tables (EN 300 744, 4.3.4.2). It is seen as the mode.
#[derive(Drop)]
pub struct Permutation<M: Carriers> {
    places: Vec<u16>,
    words: Vec<u16>,
    of: PhantomData<M>,
}

impl<M: Carriers> Model for Permutation<M> {
    ghost use Rattle.mode_set.specs.declared.modes.Mode.{Mode};
    ghost use Rattle.symbol_interleave.specs.Carried.{AreTables};

    ghost Value = { Mode };

    ghost view = { λ _. M.MODE };

    ghost invariant = { λ p. AreTables M.MODE p.places.items p.words.items };
}

impl<M: Carriers> Permutation<M> {
    /// Makes both tables. It takes memory for two numbers a payload carrier.
    pub fn new(alloc: Global) -> Result<Self, AllocError>
        ensures { IfOk result (λ permutation. permutation ≡ M.MODE) }
    {
        let places = places::<M>(alloc)?;
        let words = inverse(alloc, &places)?;
        Ok(Permutation {
            places,
            words,
            of: PhantomData,
        })
    }

    /// H(q): the payload place at which word `q` of an even symbol stands.
    pub fn h(&self, q: u32) -> u32
        requires { q < payload M.MODE }
        ensures address { result ≡ slice_index (list_h M.MODE) q }
        ensures in_symbol { result < payload M.MODE }
        ensures back { carried M.MODE false result ≡ q }
    {
        self.places[q as usize] as u32
    }

    // The word that stands at payload place `q` of an even symbol.
    fn word_at(&self, q: u32) -> u32
        requires { q < payload M.MODE }
        ensures word { result ≡ carried M.MODE false q }
        ensures in_symbol { result < payload M.MODE }
        ensures back { slice_index (list_h M.MODE) result ≡ q }
    {
        self.words[q as usize] as u32
    }

    /// The word, before interleaving, that payload place `q` of a symbol carries. It is the inverse
    /// of [`Permutation::target`].
    pub fn source(&self, odd: bool, q: u32) -> u32
        requires { q < payload M.MODE }
        ensures carried { result ≡ carried M.MODE odd q }
        ensures in_symbol { result < payload M.MODE }
        ensures back { place_of_word M.MODE odd result ≡ q }
    {
        if odd { self.h(q) } else { self.word_at(q) }
    }

    /// The payload place of a symbol that carries word `word`. It is the inverse of
    /// [`Permutation::source`].
    pub fn target(&self, odd: bool, word: u32) -> u32
        requires { word < payload M.MODE }
        ensures place { result ≡ place_of_word M.MODE odd word }
        ensures in_symbol { result < payload M.MODE }
        ensures back { carried M.MODE odd result ≡ word }
    {
        if odd {
            self.word_at(word)
        } else {
            self.h(word)
        }
    }
}

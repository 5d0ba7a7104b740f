// The labels of the next symbol.
ghost use Rattle.std.specs.Prelude.{◌≡◌, ◌^◌, ◌<◌, ◌≤◌, ℕ, Bool, drop, take, length, get_or, vec_capacity};
ghost use Rattle.mode_set.specs.Entries.{with_entry};
ghost use Rattle.mode_set.specs.StreamTable.{label_bits, need, payload};
ghost use Rattle.mode_set.specs.declared.modes.Stream.TheVariants.{Hp, Lp};
ghost use Rattle.inner_chain.specs.Labels.{IsBefore, IsFed, Paths, behind, coded_bits, input_bits, label_bit};
ghost use Rattle.frame_build.specs.Symbol.{Agree, bits_of};
ghost use Rattle.frame_build.specs.Words.{carried_bits};

use bit_pack::WaitBuf;
use inner_chain::InnerTx;
use mode_set::{Carriers, Entry};
use std::alloc::{AllocError, Global};
use std::marker::PhantomData;
use symbol_interleave::laws::{h_is_a_permutation, places_and_words_agree};

/// Takes the bits of the next symbol of each stream, and replaces the content of `labels` by the symbol's labels.
/// `entry` has the symbol's parameters.
pub(crate) fn next_labels<M: Carriers>(
    entry: &Entry,
    odd: bool,
    inner: &mut InnerTx<M>,
    hp: &mut WaitBuf,
    lp: &mut WaitBuf,
    labels: &mut Vec<u8>,
)
    requires hp { need (with_entry inner.old.settings entry.now) Hp ≤ length hp.old }
    requires lp { need (with_entry inner.old.settings entry.now) Lp ≤ length lp.old }
    requires hp_register { length inner.old.hp ≡ 6 }
    requires lp_register { length inner.old.lp ≡ 6 }
    requires room { payload inner.old.settings.mode ≤ vec_capacity labels.old }

    ensures settings { inner.new.settings ≡ inner.old.settings }
    ensures hp { hp.new ≡ drop (need (with_entry inner.old.settings entry.now) Hp) hp.old }
    ensures lp { lp.new ≡ drop (need (with_entry inner.old.settings entry.now) Lp) lp.old }
    ensures hp_register { length inner.new.hp ≡ 6 }
    ensures lp_register { length inner.new.lp ≡ 6 }
    ensures capacity { vec_capacity labels.new ≡ vec_capacity labels.old }

    ensures count { length labels.new.items ≡ payload inner.old.settings.mode }
    ensures small { (q : ℕ) → q < payload inner.old.settings.mode
        → get_or labels.new.items q 0 < 2 ^ label_bits entry.now.shape }
    ensures labels { (paths : Paths) → IsBefore inner.old paths
        → take (need (with_entry inner.old.settings entry.now) Hp) hp.old
        ≡ input_bits (with_entry inner.old.settings entry.now) paths Hp
        → take (need (with_entry inner.old.settings entry.now) Lp) lp.old
        ≡ input_bits (with_entry inner.old.settings entry.now) paths Lp
        → Agree (with_entry inner.old.settings entry.now) (bits_of labels.new.items)
        (label_bit (with_entry inner.old.settings entry.now) odd
        (coded_bits (with_entry inner.old.settings entry.now) paths)) }
    ensures next { (paths : Paths) → IsBefore inner.old paths
        → take (need (with_entry inner.old.settings entry.now) Hp) hp.old
        ≡ input_bits (with_entry inner.old.settings entry.now) paths Hp
        → take (need (with_entry inner.old.settings entry.now) Lp) lp.old
        ≡ input_bits (with_entry inner.old.settings entry.now) paths Lp
        → IsBefore inner.new (behind (with_entry inner.old.settings entry.now) paths) }
{
    labels.clear();
    inner.labels(entry, odd, hp, lp, labels);
}

/// The labels of a symbol's words.
#[derive(Drop)]
pub(crate) struct WordLabels<M: Carriers> {
    pub labels: Vec<u8>,
    of: PhantomData<M>,
    ghost long: { length labels.items ≡ payload M.MODE },
}

impl<M: Carriers> WordLabels<M> {
    pub(crate) fn new(alloc: Global) -> Result<Self, AllocError> {
        Ok(WordLabels {
            labels: vec![in alloc; 0u8; M::NMAX as usize]?,
            of: PhantomData,
        })
    }
}

/// Takes the bits of the next symbol of each stream, and replaces the labels of the words by those of the symbol.
/// `entry` has the symbol's parameters.
pub(crate) fn next_words<M: Carriers>(
    entry: &Entry,
    inner: &mut InnerTx<M>,
    hp: &mut WaitBuf,
    lp: &mut WaitBuf,
    words: &mut WordLabels<M>,
)
    requires hp { need (with_entry inner.old.settings entry.now) Hp ≤ length hp.old }
    requires lp { need (with_entry inner.old.settings entry.now) Lp ≤ length lp.old }
    requires hp_register { length inner.old.hp ≡ 6 }
    requires lp_register { length inner.old.lp ≡ 6 }
    requires mode { inner.old.settings.mode ≡ M.MODE }

    ensures settings { inner.new.settings ≡ inner.old.settings }
    ensures hp { hp.new ≡ drop (need (with_entry inner.old.settings entry.now) Hp) hp.old }
    ensures lp { lp.new ≡ drop (need (with_entry inner.old.settings entry.now) Lp) lp.old }
    ensures hp_register { length inner.new.hp ≡ 6 }
    ensures lp_register { length inner.new.lp ≡ 6 }

    ensures small { (w : ℕ) → w < M.NMAX → get_or words.new.labels.items w 0 < 2 ^ label_bits entry.now.shape }
    ensures labels { (paths : Paths) (odd : Bool)
        → IsFed inner.old (with_entry inner.old.settings entry.now) paths hp.old lp.old
        → Agree (with_entry inner.old.settings entry.now) (carried_bits M.MODE odd words.new.labels.items)
        (label_bit (with_entry inner.old.settings entry.now) odd
        (coded_bits (with_entry inner.old.settings entry.now) paths)) }
    ensures next { (paths : Paths) → IsFed inner.old (with_entry inner.old.settings entry.now) paths hp.old lp.old
        → IsBefore inner.new (behind (with_entry inner.old.settings entry.now) paths) }
{
    h_is_a_permutation();
    places_and_words_agree();
    inner.word_labels(entry, hp, lp, &mut words.labels);
}

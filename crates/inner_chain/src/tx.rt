// From the waiting bits of the streams to the labels of a symbol.
ghost use Rattle.std.specs.Prelude.{◌≡◌, ◌≢◌, ◌+◌, ◌≤◌, ℕ, Bool, IfOk, take, drop, length, vec_capacity, vec_len};
ghost use Rattle.mode_set.specs.Entries.{with_entry};
ghost use Rattle.mode_set.specs.StreamTable.{need, payload};
ghost use Rattle.mode_set.specs.declared.modes.Stream.{Stream as AnyStream};
ghost use Rattle.mode_set.specs.declared.modes.Stream.TheVariants.{Hp, Lp};
ghost use Rattle.puncture.specs.SentBits.{bits_from};
ghost use Rattle.conv_code.specs.Coded.{zeros};
ghost use Rattle.inner_chain.specs.Labels.{AppendsLabels, AreWordLabels, IsBefore, IsFed, Paths, behind, coded_bits};
ghost use Rattle.inner_chain.specs.Labels.{from_step, input_bits};
ghost use Rattle.inner_chain.specs.Labels.{register_of};

use crate::entries::label_table;
use crate::label_tables::{table_of, turn_label_tables};
use crate::parities::rows;
use crate::symbol::{code, push_symbol};
use crate::word_labels::write_word_labels;
use bit_pack::WaitBuf;
use conv_code::Encoder;
use mode_set::{Carriers, Entry, Settings, Stream};
use std::alloc::{AllocError, Global};
use std::marker::Model;
use symbol_interleave::Permutation;

/// The inner coder of a transmission: from the waiting bits of its streams to the labels of its
/// symbols (EN 300 744, 4.3.3, 4.3.4 and 4.3.5).
///
/// It is seen as its settings and the registers of the encoders. It stands for the bits that it has
/// taken of each stream: each register has the last six of them. Each call is given the parameters of
/// its symbol.
#[derive(Drop)]
pub struct InnerTx<M: Carriers> {
    settings: Settings,
    hp: Encoder,
    lp: Encoder,
    permutation: Permutation<M>,
    // The parameters of the last symbol, and the tables for them.
    latest: Entry,
    even: Vec<u16>,
    odd: Vec<u16>,
    // The parameters for which the table of words was written last, and that table.
    word_latest: Option<Entry>,
    words: Vec<u16>,
    rows: Vec<[bool; 8]>,
    parities: Vec<bool>,
}

impl<M: Carriers> Model for InnerTx<M> {
    ghost use Rattle.std.specs.Prelude.{vec_capacity};
    ghost use Rattle.inner_chain.specs.Labels.{TxState};
    ghost use Rattle.inner_chain.specs.Tables.{IsTx};

    ghost Value = { TxState };

    ghost view = { λ t. record { settings = t.settings; hp = t.hp; lp = t.lp } };

    ghost invariant = { λ t. IsTx M.MODE t.settings t.latest t.hp t.lp t.even.items t.odd.items (vec_capacity t.even)
        (vec_capacity t.odd) t.word_latest t.words.items (vec_capacity t.words) t.rows.items t.parities.items };
}

impl<M: Carriers> InnerTx<M> {
    /// The inner coder before the first symbol. It takes all its memory, enough for any parameters of the
    /// mode.
    pub fn new(alloc: Global, settings: &Settings) -> Result<Self, AllocError>
        requires { settings.now.mode ≡ M.MODE }
        ensures settings { IfOk result (λ tx. tx.settings ≡ settings.now) }
        ensures hp { IfOk result (λ tx. tx.hp ≡ zeros) }
        ensures lp { IfOk result (λ tx. tx.lp ≡ zeros) }
    {
        let permutation = Permutation::<M>::new(alloc)?;
        let latest = settings.entry(0);
        let first = settings.with_entry(&latest);
        let even = label_table(alloc, &first, false, &permutation)?;
        let odd = label_table(alloc, &first, true, &permutation)?;
        let words = Vec::with_capacity(alloc, 6 * settings.mode.payload() as usize)?;
        let rows = rows(alloc)?;
        let parities = vec![in alloc; false; 2 * (21 * settings.mode.payload() as usize / 4)]?;
        Ok(InnerTx {
            settings: *settings,
            hp: Encoder::start(),
            lp: Encoder::start(),
            permutation,
            latest,
            even,
            odd,
            word_latest: None,
            words,
            rows,
            parities,
        })
    }

    /// The bits of a stream that a symbol of these parameters takes, 0 for a stream that does not exist
    /// there.
    pub fn need(&self, entry: &Entry, stream: Stream) -> u32
        ensures { result ≡ need (with_entry self.now.settings entry.now) stream }
    {
        self.settings.with_entry(entry).need(stream)
    }

    /// Takes the bits of the next symbol of each stream, and appends the symbol's labels in carrier
    /// order. `entry` has its parameters, and `odd` says whether its number is odd.
    ///
    /// At least `need` bits wait in each queue, and the spare of `to` has room for one label for each payload cell.
    ///
    /// Bit e of a label is y_e of EN 300 744, 4.3.5.
    pub fn labels(
        &mut self,
        entry: &Entry,
        odd: bool,
        hp: &mut WaitBuf,
        lp: &mut WaitBuf,
        to: &mut Vec<u8>,
    )
        requires hp { need (with_entry self.old.settings entry.now) Hp ≤ length hp.old }
        requires lp { need (with_entry self.old.settings entry.now) Lp ≤ length lp.old }
        requires spare { vec_len to.old + payload self.old.settings.mode ≤ vec_capacity to.old }

        ensures settings { self.new.settings ≡ self.old.settings }
        ensures hp { hp.new ≡ drop (need (with_entry self.old.settings entry.now) Hp) hp.old }
        ensures lp { lp.new ≡ drop (need (with_entry self.old.settings entry.now) Lp) lp.old }
        ensures capacity { vec_capacity to.new ≡ vec_capacity to.old }

        // Before any paths whose input bits wait, the labels are those of their first coded bits, and
        // afterwards it is before what follows of them.
        ensures labels { (paths : Paths) → IsBefore self.old paths
            → take (need (with_entry self.old.settings entry.now) Hp) hp.old
            ≡ input_bits (with_entry self.old.settings entry.now) paths Hp
            → take (need (with_entry self.old.settings entry.now) Lp) lp.old
            ≡ input_bits (with_entry self.old.settings entry.now) paths Lp
            → AppendsLabels (with_entry self.old.settings entry.now) odd
            (coded_bits (with_entry self.old.settings entry.now) paths) to.old.items to.new.items }
        ensures next { (paths : Paths) → IsBefore self.old paths
            → take (need (with_entry self.old.settings entry.now) Hp) hp.old
            ≡ input_bits (with_entry self.old.settings entry.now) paths Hp
            → take (need (with_entry self.old.settings entry.now) Lp) lp.old
            ≡ input_bits (with_entry self.old.settings entry.now) paths Lp
            → IsBefore self.new (behind (with_entry self.old.settings entry.now) paths) }
    {
        turn_label_tables(
            &self.settings,
            entry,
            &self.permutation,
            &mut self.latest,
            &mut self.even,
            &mut self.odd,
        );
        let settings = self.settings.with_entry(entry);
        code(
            &settings,
            &self.rows,
            hp,
            &mut self.hp,
            lp,
            &mut self.lp,
            &mut self.parities,
        );
        let entries = table_of(&settings, odd, &self.even, &self.odd);
        push_symbol(
            &settings,
            odd,
            entries,
            &self.parities,
            &self.permutation,
            to,
        );
    }

    /// Takes the bits of the next symbol of each stream, and writes the labels of the symbol's words over the slice,
    /// before the symbol interleaver: those that [`labels`](InnerTx::labels) appends, in the order of the words.
    /// `entry` has the symbol's parameters. It is the faster of the two.
    pub fn word_labels(&mut self, entry: &Entry, hp: &mut WaitBuf, lp: &mut WaitBuf, to: &mut [u8])
        requires hp { need (with_entry self.old.settings entry.now) Hp ≤ length hp.old }
        requires lp { need (with_entry self.old.settings entry.now) Lp ≤ length lp.old }
        requires long { length to.old ≡ payload self.old.settings.mode }

        ensures settings { self.new.settings ≡ self.old.settings }
        ensures hp { hp.new ≡ drop (need (with_entry self.old.settings entry.now) Hp) hp.old }
        ensures lp { lp.new ≡ drop (need (with_entry self.old.settings entry.now) Lp) lp.old }

        // For any paths whose input bits wait, the labels are those of their first coded bits, and
        // afterwards it is before what follows of them.
        ensures labels { (paths : Paths) → IsFed self.old (with_entry self.old.settings entry.now) paths hp.old lp.old
            → AreWordLabels (with_entry self.old.settings entry.now)
            (coded_bits (with_entry self.old.settings entry.now) paths) to.new }
        ensures next { (paths : Paths) → IsFed self.old (with_entry self.old.settings entry.now) paths hp.old lp.old
            → IsBefore self.new (behind (with_entry self.old.settings entry.now) paths) }
    {
        let rows = &self.rows;
        let present = self.settings.with_entry(entry);
        code(
            &present,
            rows,
            hp,
            &mut self.hp,
            lp,
            &mut self.lp,
            &mut self.parities,
        );
        write_word_labels(
            &present,
            &self.settings,
            entry,
            &self.parities,
            &mut self.word_latest,
            &mut self.words,
            to,
        );
    }

    /// Moves the encoder of a stream on by its next bit, of which no label is made.
    pub fn skip_bit(&mut self, stream: Stream, bit: bool)
        ensures settings { self.new.settings ≡ self.old.settings }
        // Before a path that has this bit, it is afterwards before what follows of the path.
        ensures next { (path : ℕ → Bool) → register_of self.old stream ≡ bits_from path 0 6 → path 6 ≡ bit
            → register_of self.new stream ≡ bits_from (from_step path 1) 0 6 }
        ensures other { (σ : AnyStream) → σ ≢ stream → register_of self.new σ ≡ register_of self.old σ }
    {
        match stream {
            Stream::Hp => self.hp.step(bit),
            Stream::Lp => self.lp.step(bit),
        };
    }
}

// From packets to symbols.
ghost use Rattle.std.specs.Prelude.{◌≡◌, ◌≢◌, ◌+◌, ◌*◌, ◌^◌, ◌<◌, ◌≤◌, Some, None, IfOk, length, vec_capacity};
ghost use Rattle.mode_set.specs.StreamTable.{need};
ghost use Rattle.mode_set.specs.declared.modes.Stream.TheVariants as streams;
ghost use Rattle.transmission.specs.Transmission.{Inputs, by_stream, tx_symbol};
ghost use Rattle.symbol_parameters.specs.Spans.{settings_at};
ghost use Rattle.transmission.specs.SuperFrames.{IsLength, super_frames};
ghost use Rattle.modulator.specs.State.{HasOneMore, HasPut, IsNext, StandsFor, no_packets, wanted, with_packet};
ghost use Rattle.modulator.specs.Wants.{stream_of};

use crate::laws::other_streams;
use crate::next_labels::{WordLabels, next_words};
use crate::stream::StreamTx;
use crate::super_frames::super_frames_for;
use crate::want::Want;
use bit_pack::WaitBuf;
use frame_build::{SymbolOut, WordCarriers, symbols_follow_labels, symbols_repeat};
use inner_chain::InnerTx;
use mode_set::{Carriers, Settings, Stream};
use std::alloc::{AllocError, Global};
use std::marker::Model;
use symbol_parameters::laws::{settings as super_frame_settings, steps, words};
use symbol_parameters::parameters_of_symbol;
use transmission::laws::super_frames as super_frames_are_least;
use ts_packet::Packet;

// What the next symbol needs, given the pending bits.
fn want_of(settings: &Settings, hp: &WaitBuf, lp: &WaitBuf) -> Want
    ensures hp { result ≡ Want.Hp → length hp.now < need settings.now streams.Hp }
    ensures lp { result ≡ Want.Lp → (need settings.now streams.Hp ≤ length hp.now)
        × (length lp.now < need settings.now streams.Lp) }
    ensures symbol { result ≡ Want.Symbol → (need settings.now streams.Hp ≤ length hp.now)
        × (need settings.now streams.Lp ≤ length lp.now) }
    ensures hp_few { result ≡ Want.Hp → length hp.now < 31752 }
    ensures lp_few { result ≡ Want.Lp → length lp.now < 31752 }
{
    if hp.waiting() < settings.need(Stream::Hp) as usize {
        return Want::Hp;
    }
    if lp.waiting() < settings.need(Stream::Lp) as usize {
        return Want::Lp;
    }
    Want::Symbol
}

// The settings of the next symbol.
fn settings_of_next(settings: &Settings, made: u64) -> Settings
    requires { made ≤ 2 ^ 32 }
    ensures { result ≡ settings_at settings.now made }
{
    settings.with_entry(&parameters_of_symbol(settings, made))
}

/// A transmitter: packets are put in as [`wants`](Modulator::wants) asks for them, and symbols are made from them.
///
/// Contracts see its settings, the number of symbols made and the number of packets put into each stream. Its state
/// matches the packets put (`StandsFor`), and so the start of every transmission of streams that begin with them
/// (`HasPut`). Only `new` allocates memory.
#[derive(Drop)]
pub struct Modulator<M: Carriers> {
    pub(crate) settings: Settings,
    pub(crate) hp: StreamTx,
    pub(crate) lp: StreamTx,
    pub(crate) inner: InnerTx<M>,
    pub(crate) out: SymbolOut<M>,
    // The labels of the last symbol in the order of its carriers, with space for any, and those in the order of words.
    pub(crate) labels: Vec<u8>,
    words: WordLabels<M>,
    carriers: WordCarriers<M>,
    pub(crate) made: u64,
}

impl<M: Carriers> Model for Modulator<M> {
    ghost use Rattle.std.specs.Prelude.{vec_capacity};
    ghost use Rattle.modulator.specs.State.{IsKept, Transmitter, transmitter};

    ghost Value = { Transmitter };

    ghost view = { λ m. transmitter m.settings m.made (record {
      hp_sender = m.hp.outer;
      lp_sender = m.lp.outer;
      hp_waiting = m.hp.waiting;
      lp_waiting = m.lp.waiting;
      inner
          = m.inner;
    }) };

    ghost invariant = { λ m. IsKept M.MODE m.settings m.made
        (record {
          hp_sender = m.hp.outer;
          lp_sender = m.lp.outer;
          hp_waiting = m.hp.waiting;
          lp_waiting
              = m.lp.waiting;
          inner = m.inner;
        }) m.out (vec_capacity m.labels) };
}

impl<M: Carriers> Modulator<M> {
    /// The modulator before the first packet. It allocates all its memory; the only error is lack of memory.
    pub fn new(alloc: Global, settings: &Settings) -> Result<Self, AllocError>
        requires { settings.now.mode ≡ M.MODE }
        ensures settings { IfOk result (λ tx. tx.settings ≡ settings.now) }
        ensures made { IfOk result (λ tx. tx.made ≡ 0) }
        ensures hp { IfOk result (λ tx. tx.hp ≡ 0) }
        ensures lp { IfOk result (λ tx. tx.lp ≡ 0) }
        ensures put { IfOk result (λ tx. (inputs : Inputs) → HasPut tx inputs) }
        ensures stands { IfOk result (λ tx. StandsFor tx no_packets) }
    {
        steps();
        Ok(Modulator {
            settings: *settings,
            hp: StreamTx::new(alloc)?,
            lp: StreamTx::new(alloc)?,
            inner: InnerTx::new(alloc, settings)?,
            out: SymbolOut::new(settings),
            labels: Vec::with_capacity(alloc, M::NMAX as usize)?,
            words: WordLabels::new(alloc)?,
            carriers: WordCarriers::new(alloc)?,
            made: 0,
        })
    }

    /// What to do next: put a packet of HP if the next symbol needs one, otherwise one of LP if it needs one, otherwise
    /// make the symbol. LP is never wanted if the symbol's super-frame has no LP.
    pub fn wants(&self) -> Want
        ensures { stream_of result ≡ wanted self.now }
    {
        steps();
        let settings = settings_of_next(&self.settings, self.made);
        want_of(&settings, &self.hp.waiting, &self.lp.waiting)
    }

    /// Puts in the next packet of the wanted stream.
    pub fn put(&mut self, packet: &Packet)
        requires wanted { wanted self.old ≢ None }
        ensures settings { self.new.settings ≡ self.old.settings }
        ensures made { self.new.made ≡ self.old.made }
        ensures counts { HasOneMore (wanted self.old) self.old self.new }
        ensures put { (inputs : Inputs) → HasPut self.old inputs → IsNext self.old inputs packet.now
            → HasPut self.new inputs }
        ensures stands { (packets : Inputs) → StandsFor self.old packets
            → StandsFor self.new (with_packet packets (wanted self.old) packet.now) }
    {
        other_streams();
        steps();
        let settings = settings_of_next(&self.settings, self.made);
        match want_of(&settings, &self.hp.waiting, &self.lp.waiting) {
            Want::Hp => self.hp.put(packet),
            Want::Lp => self.lp.put(packet),
            Want::Symbol => {}
        }
    }

    /// Makes the next symbol, and writes its bytes over the slice, which has five for each carrier: the bytes that
    /// [`symbol`](Modulator::symbol) appends, on the same conditions except for the capacity. It is the faster of the
    /// two.
    pub fn symbol_into(&mut self, to: &mut [u8])
        requires wanted { wanted self.old ≡ None }
        requires few { self.old.made < 2 ^ 32 }
        requires long { length to.old ≡ 5 * M.K }
        ensures settings { self.new.settings ≡ self.old.settings }
        ensures made { self.new.made ≡ self.old.made + 1 }
        ensures hp { self.new.hp ≡ self.old.hp }
        ensures lp { self.new.lp ≡ self.old.lp }
        ensures put { (inputs : Inputs) → HasPut self.old inputs → HasPut self.new inputs }
        ensures stands { (packets : Inputs) → StandsFor self.old packets → StandsFor self.new packets }

        // The bytes are those of the next symbol in every transmission that begins with the packets put.
        ensures bytes { (inputs : Inputs) → HasPut self.old inputs → to.new
            ≡ tx_symbol self.old.settings inputs self.old.made }
    {
        steps();
        super_frame_settings();
        let made = self.made;
        symbols_repeat(made);
        symbols_follow_labels(self.settings.mode, made);
        let now = parameters_of_symbol(&self.settings, made);
        let next = parameters_of_symbol(&self.settings, made + 272);
        next_words(
            &now,
            &mut self.inner,
            &mut self.hp.waiting,
            &mut self.lp.waiting,
            &mut self.words,
        );
        self.out
            .write_words(&now, &next, &self.words.labels, &mut self.carriers, to);
        self.made = made + 1;
    }

    /// The number of symbols made so far.
    pub fn made(&self) -> u64
        ensures { result ≡ self.now.made }
    {
        self.made
    }

    /// The super-frames of a transmission with these numbers of packets: the least number, at least 1, that carries the
    /// packets of each stream and eleven words more. `None` exactly if no number does, as a stream is absent from some
    /// super-frame on. Each stream has at most 100,000,000 packets.
    pub fn super_frames(settings: &Settings, n_hp: u64, n_lp: u64) -> Option<u64>
        requires hp { n_hp ≤ 100000000 }
        requires lp { n_lp ≤ 100000000 }
        ensures length { IsLength settings.now (by_stream n_hp n_lp) result }
        ensures is { result ≡ super_frames settings.now (by_stream n_hp n_lp) }
    {
        super_frames_are_least();
        super_frame_settings();
        words();
        let hp = super_frames_for(settings, Stream::Hp, n_hp + 11)?;
        if !settings.has_lp() {
            return Some(hp);
        }
        let lp = super_frames_for(settings, Stream::Lp, n_lp + 11)?;
        Some(hp.max(lp))
    }
}

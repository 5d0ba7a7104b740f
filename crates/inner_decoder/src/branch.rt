// The decoder of one stream, symbol by symbol.
ghost use Rattle.std.specs.Prelude.{◌≡◌, ◌+◌, ◌*◌, ◌<◌, ◌≤◌, ◌^◌, Bool, List, [], ◌∷◌, ◌++◌, false, true, length, IfOk};
ghost use Rattle.std.specs.Prelude.{IsNone, IfSome, ◌↔◌};
ghost use Rattle.std.specs.declared.option.Option.{Option};
ghost use Rattle.std.specs.Option.{option_to_list};
ghost use Rattle.bit_pack.specs.Queue.{bits_of_bytes};
ghost use Rattle.spec_words.specs.Bits.{spelled};
ghost use Rattle.code_paths.specs.declared.costs.CostPair.{CostPair};
ghost use Rattle.code_paths.specs.Streams.{Reports};
ghost use Rattle.inner_decoder.specs.Tracking.{Stands, Finished};
ghost use Rattle.inner_decoder.specs.Running.{Ran, RanSymbol};
ghost use Rattle.inner_decoder.specs.Events.{ats, at_of};
ghost use Rattle.inner_decoder.specs.Starts.{start_of};

use crate::decoder::SLICE;
use crate::{Decoder, StartState, Unmerged};
use acs_plain::Acs;
use arrayvec::ArrayVec;
use bit_pack::WaitBuf;
use conv_code::CostPair;
use std::alloc::{AllocError, Global};
use std::marker::Model;
use survivor_ring::Survivors;

/// Keeps a report, if there is one.
fn note(events: &mut ArrayVec<Unmerged, 16>, report: Option<Unmerged>)
    requires { length events.old.items + length (option_to_list report) ≤ 16 }
    ensures { ats events.new.items ≡ ats events.old.items ++ option_to_list (at_of report) }
{
    if let Some(event) = report {
        events.push(event);
    }
}

/// Steps through pairs of costs.
pub(crate) fn run<A: Acs, V: Survivors<2048>>(
    decoder: &mut Decoder<A, V, 2048>,
    pairs: &[CostPair],
    to: &mut WaitBuf,
    events: &mut ArrayVec<Unmerged, 16>,
)
    requires going { decoder.old.ended ≡ false }
    requires steps { decoder.old.steps < 2 ^ 61 }
    requires waiting { decoder.old.waiting ≤ 2048 }
    requires few { length pairs.now ≤ 31752 }
    requires room { length to.old < 8 }
    requires none { events.old.items ≡ [] }
    ensures going { decoder.new.ended ≡ false }
    ensures steps { decoder.new.steps ≡ decoder.old.steps + length pairs.now }
    ensures waiting { decoder.new.waiting ≤ 2048 }
    ensures room { length to.new ≤ 33807 }
    ensures amount { length to.new + decoder.new.waiting ≡ length to.old + decoder.old.waiting + length pairs.now }
    ensures ran { (a : Option (List Bool)) (c : List CostPair) (g : List Bool) → Stands 2048 decoder.old a c g
        → Ran 2048 decoder.new a c g pairs.now to.old to.new (ats events.new.items) }
{
    let mut words = [0u64; SLICE];
    let mut taken = 0;
    while taken < pairs.len() {
        let (count, report) = decoder.run_part(&pairs[taken..], &mut words, to);
        note(events, report);
        taken += count;
    }
}

/// The decoder of one stream with a path memory of 2048 steps, the cost pairs of one symbol, the bits not yet taken,
/// and the reports of the last symbol.
///
/// Only `new` allocates memory.
#[derive(Drop)]
pub struct Branch<A: Acs, V: Survivors<2048>> {
    pub(crate) decoder: Decoder<A, V, 2048>,
    pub(crate) pairs: Vec<CostPair>,
    pub(crate) used: u32,
    most: u32,
    pub(crate) wait: WaitBuf,
    pub(crate) events: ArrayVec<Unmerged, 16>,
}

impl<A: Acs, V: Survivors<2048>> Model for Branch<A, V> {
    ghost use Rattle.std.specs.Prelude.{take, length, ◌≡◌, ◌≤◌};
    ghost use Rattle.inner_decoder.specs.Running.{BranchState};

    ghost Value = { BranchState };

    ghost view = { λ b. record {
      decoder = b.decoder;
      loaded = take b.used b.pairs.items;
      most = b.most;
      wait
          = b.wait;
      events = b.events.items;
    } };

    ghost invariant = { λ b. (length b.pairs.items ≡ b.most) × (b.used ≤ b.most) × (b.decoder.waiting ≤ 2048) };
}

/// Space for `most` pairs.
fn empty_pairs(alloc: Global, most: u32) -> Result<Vec<CostPair>, AllocError>
    ensures { IfOk result (λ v. length v.items ≡ most) }
{
    let none = CostPair {
        x0: 0,
        x1: 0,
        y0: 0,
        y1: 0,
    };
    let mut pairs = Vec::with_capacity(alloc, most as usize)?;
    for _k in 0..most {
        pairs.push(none)?;
    }
    Ok(pairs)
}

impl<A: Acs, V: Survivors<2048>> Branch<A, V> {
    /// A branch that has taken nothing, with space for the pairs of a symbol. The only error is lack of memory.
    pub fn new(alloc: Global, start: StartState, most: u32) -> Result<Self, AllocError>
        ensures going { IfOk result (λ b. b.decoder.ended ≡ false) }
        ensures most { IfOk result (λ b. b.most ≡ most) }
        ensures loaded { IfOk result (λ b. b.loaded ≡ []) }
        ensures wait { IfOk result (λ b. b.wait ≡ []) }
        ensures events { IfOk result (λ b. b.events ≡ []) }
        ensures steps { IfOk result (λ b. b.decoder.steps ≡ 0) }
        ensures waiting { IfOk result (λ b. b.decoder.waiting ≡ 0) }
        ensures stands { IfOk result (λ b. Stands 2048 b.decoder (start_of start) [] []) }
        ensures reports { Reports 2048 (start_of start) [] [] }
    {
        let decoder = Decoder::new(alloc, start)?;
        let pairs = empty_pairs(alloc, most)?;
        Ok(Branch {
            decoder,
            pairs,
            used: 0,
            most,
            wait: WaitBuf::new(),
            events: ArrayVec::new(),
        })
    }

    /// The number of pairs loaded.
    pub fn loaded(&self) -> u32
        ensures number { result ≡ length self.now.loaded }
    {
        self.used
    }

    /// Steps the decoder through these pairs in order, in place, and gives all shared bits: the result is that of
    /// `load_all` and then `run_symbol`, without the copy. All bits given so far are then exactly the bits given of the
    /// definition. The events are the new reports.
    ///
    /// There are at most 31,752 pairs, the steps of the largest symbol; `most` does not limit them. No pair is loaded,
    /// fewer than eight bits are pending, fewer than 2^61 steps were made, and the branch has not ended.
    pub fn run_over(&mut self, pairs: &[CostPair])
        requires going { self.old.decoder.ended ≡ false }
        requires loaded { self.old.loaded ≡ [] }
        requires few { length pairs.now ≤ 31752 }
        requires wait { length self.old.wait < 8 }
        requires steps { self.old.decoder.steps < 2 ^ 61 }
        ensures going { self.new.decoder.ended ≡ false }
        ensures most { self.new.most ≡ self.old.most }
        ensures loaded { self.new.loaded ≡ [] }
        ensures steps { self.new.decoder.steps ≡ self.old.decoder.steps + length pairs.now }
        ensures amount { length self.new.wait + self.new.decoder.waiting ≡ length self.old.wait
            + self.old.decoder.waiting + length pairs.now }
        ensures ran { (a : Option (List Bool)) (c : List CostPair) (g : List Bool) → Stands 2048 self.old.decoder a c g
            → RanSymbol 2048 self.new.decoder a c g pairs.now self.old.wait self.new.wait (ats self.new.events) }
    {
        self.events.clear();
        run(&mut self.decoder, pairs, &mut self.wait, &mut self.events);
        self.decoder.give(&mut self.wait);
    }

    /// The reports of the last `run_symbol` or `run_over`, in order.
    pub fn events(&self) -> &[Unmerged]
        ensures events { result.now ≡ self.now.events }
        ensures few { length result.now ≤ 16 }
    {
        self.events.as_slice()
    }

    /// The number of bits given but not yet taken.
    pub fn waiting(&self) -> u32
        ensures number { result ≡ length self.now.wait }
        ensures few { result ≤ 36864 }
    {
        self.wait.waiting() as u32
    }

    /// Takes the first eight pending bits, first bit most significant; None exactly if there are fewer, and then
    /// nothing changes.
    pub fn take_byte(&mut self) -> Option<u8>
        ensures none { IsNone result ↔ (length self.old.wait < 8) }
        ensures unchanged { IsNone result → self.new ≡ self.old }
        ensures taken { IfSome result (λ b. self.old.wait ≡ spelled 8 b ++ self.new.wait) }
        ensures amount { IfSome result (λ b. length self.old.wait ≡ length self.new.wait + 8) }
        ensures rest { self.new ≡ record self.old { wait = self.new.wait } }
    {
        self.wait.take_byte()
    }

    /// Takes the first pending bits as bytes, first bit of each most significant. As many must be pending as the bytes
    /// have.
    pub fn take_bytes(&mut self, to: &mut [u8])
        requires enough { 8 * length to.old ≤ length self.old.wait }
        ensures size { length to.new ≡ length to.old }
        ensures taken { self.old.wait ≡ bits_of_bytes to.new ++ self.new.wait }
        ensures amount { length self.old.wait ≡ length self.new.wait + 8 * length to.old }
        ensures rest { self.new ≡ record self.old { wait = self.new.wait } }
    {
        self.wait.take_bytes(to);
    }

    /// Takes the first pending bit; None exactly if there is none, and then nothing changes.
    pub fn take_bit(&mut self) -> Option<bool>
        ensures none { IsNone result ↔ (length self.old.wait < 1) }
        ensures unchanged { IsNone result → self.new ≡ self.old }
        ensures taken { IfSome result (λ b. self.old.wait ≡ b ∷ self.new.wait) }
        ensures amount { IfSome result (λ b. length self.old.wait ≡ length self.new.wait + 1) }
        ensures rest { self.new ≡ record self.old { wait = self.new.wait } }
    {
        self.wait.take_bit()
    }

    /// Gives the remaining bits of the least path: all bits given are then exactly the bits at the end of the
    /// definition, and the branch has ended.
    ///
    /// No pair is loaded, fewer than eight bits are pending, and the branch has not ended.
    pub fn finish(&mut self)
        requires going { self.old.decoder.ended ≡ false }
        requires loaded { self.old.loaded ≡ [] }
        requires wait { length self.old.wait < 8 }
        ensures ended { self.new.decoder.ended ≡ true }
        ensures steps { self.new.decoder.steps ≡ self.old.decoder.steps }
        ensures rest { self.new ≡ record self.old { decoder = self.new.decoder; wait = self.new.wait } }
        ensures amount { length self.new.wait ≡ length self.old.wait + self.old.decoder.waiting }
        ensures finished { (a : Option (List Bool)) (c : List CostPair) (g : List Bool)
            → Stands 2048 self.old.decoder a c g → Finished 2048 self.new.decoder a c g self.old.wait self.new.wait }
    {
        self.decoder.finish(&mut self.wait);
    }

    /// Whether `finish` was called.
    pub fn ended(&self) -> bool
        ensures ended { result ≡ self.now.decoder.ended }
    {
        self.decoder.ended()
    }
}

// The decoder.
ghost use Rattle.std.specs.Prelude.{◌≡◌, ◌+◌, ◌-◌, ◌*◌, ◌<◌, ◌≤◌, ◌^◌, Bool, List, [], false, true, length, take, IfOk};
ghost use Rattle.std.specs.declared.option.Option.{Option};
ghost use Rattle.std.specs.Option.{option_to_list};
ghost use Rattle.code_paths.specs.declared.costs.CostPair.{CostPair};
ghost use Rattle.code_paths.specs.Streams.{Reports};
ghost use Rattle.inner_decoder.specs.Tracking.{Stands, Stepped, Gave, Finished};
ghost use Rattle.inner_decoder.specs.Events.{at_of};
ghost use Rattle.inner_decoder.specs.Running.{Ran};
ghost use Rattle.inner_decoder.specs.Settling.{IsForced, Settles, SettlesAll};

use crate::held::Held;
use crate::metric::Metric;
use acs_plain::Acs;
use bit_pack::WaitBuf;
use conv_code::CostPair;
use std::alloc::{AllocError, Global};
use std::marker::{Model, PhantomData};
use survivor_ring::Survivors;

/// The register of the inner code before a stream's first step.
#[derive(Clone, Copy, Debug, Drop, PartialEq, Eq)]
pub enum StartState {
    /// Six zeros: decoding starts at the beginning of the transmission.
    Zero,
    /// Any of the 64 registers.
    Any,
}

/// A report: the steps after the shared prefix exceeded the path memory. The bits of the least path at this moment were
/// given, and decoding continues from its register only.
#[derive(Clone, Copy, Debug, Default, Drop, PartialEq, Eq)]
pub struct Unmerged {
    /// The number of steps since the stream's start, including this one.
    pub at: u64,
}

/// The most steps of a slice. With a path memory of 2048 steps most bits are given straight from the decision words of
/// a slice, and only the rest of the words is pushed.
pub(crate) const SLICE: usize = 2049;

/// A report: gives all pending bits of the least path. Only its register stays alive.
fn force_least<V: Survivors<L>, const L: usize>(
    metric: &mut Metric,
    survivors: &mut Held<V, L>,
    to: &mut WaitBuf,
)
    requires tied { V.states survivors.old.inner.value ≡ metric.old.alive }
    requires room { length to.old + V.count survivors.old.inner.value ≤ 36864 }
    ensures tied { V.states survivors.new.inner.value ≡ metric.new.alive }
    ensures count { V.count survivors.new.inner.value ≡ 0 }
    ensures amount { length to.new ≡ length to.old + V.count survivors.old.inner.value }
    ensures forced { IsForced metric.old (V.list survivors.old.inner.value) metric.new
        (V.list survivors.new.inner.value) to.old to.new }
{
    let end = metric.best();
    survivors.force(end, to);
    *metric = Metric::only(end);
}

/// The end of step number `steps`: bits are given, or a report is made if more than `L` bits are pending.
fn settle<V: Survivors<L>, const L: usize>(
    metric: &mut Metric,
    survivors: &mut Held<V, L>,
    steps: u64,
    to: &mut WaitBuf,
) -> Option<Unmerged>
    requires tied { V.states survivors.old.inner.value ≡ metric.old.alive }
    requires few { V.count survivors.old.inner.value ≤ L + 1 }
    requires room { length to.old + L < 36864 }
    ensures tied { V.states survivors.new.inner.value ≡ metric.new.alive }
    ensures few { V.count survivors.new.inner.value ≤ L }
    ensures amount { length to.new + V.count survivors.new.inner.value ≡ length to.old
        + V.count survivors.old.inner.value }
    ensures spaced { V.count survivors.new.inner.value + (L + 1) * length (option_to_list result) ≤ V.count
        survivors.old.inner.value }
    ensures settles { Settles L metric.old (V.list survivors.old.inner.value) (V.count survivors.old.inner.value)
        metric.new (V.list survivors.new.inner.value) (V.count survivors.new.inner.value) steps to.old to.new
        (at_of result) }
{
    if (survivors.waiting() as usize) <= L {
        return None;
    }
    let shared = survivors.shared();
    if shared > 0 {
        survivors.give(shared, to);
        return None;
    }
    force_least(metric, survivors, to);
    Some(Unmerged { at: steps })
}

/// Takes the decision words of steps with all states alive, the last of them step number `steps`, and ends it as
/// `settle` does.
fn settle_all<V: Survivors<L>, const L: usize>(
    metric: &mut Metric,
    survivors: &mut Held<V, L>,
    words: &[u64],
    steps: u64,
    to: &mut WaitBuf,
) -> Option<Unmerged>
    requires all { V.states survivors.old.inner.value ≡ 2 ^ 64 - 1 }
    requires tied { V.states survivors.old.inner.value ≡ metric.old.alive }
    requires few { V.count survivors.old.inner.value + length words.now ≤ L + 1 }
    requires path { L ≤ 2048 }
    requires room { length to.old + L < 36864 }
    ensures tied { V.states survivors.new.inner.value ≡ metric.new.alive }
    ensures few { V.count survivors.new.inner.value ≤ L }
    ensures amount { length to.new + V.count survivors.new.inner.value ≡ length to.old
        + V.count survivors.old.inner.value + length words.now }
    ensures spaced { V.count survivors.new.inner.value + (L + 1) * length (option_to_list result) ≤ V.count
        survivors.old.inner.value + length words.now }
    ensures settles { SettlesAll L (V.list survivors.old.inner.value) words.now metric.old
        (V.count survivors.old.inner.value + length words.now) metric.new (V.list survivors.new.inner.value)
        (V.count survivors.new.inner.value) steps to.old to.new (at_of result) }
{
    if survivors.waiting() as usize + words.len() <= L {
        survivors.push_all(words);
        return None;
    }
    if survivors.push_and_give(words, to) > 0 {
        return None;
    }
    force_least(metric, survivors, to);
    Some(Unmerged { at: steps })
}

/// A decoder of a stream of cost pairs with a path memory of `L` steps, 1 to 2048.
///
/// Its state matches a start, the list of the cost pairs taken, and the list of the bits appended. It gives a bit once
/// the least paths to all alive registers agree on it. Its sums never wrap, however long the stream: no two of them
/// differ by more than 49,140, and the alive states follow from the start of the part and the steps since. Only `new`
/// allocates memory.
#[derive(Drop)]
pub struct Decoder<A: Acs, V: Survivors<L>, const L: usize> {
    metric: Metric,
    survivors: Held<V, L>,
    steps: u64,
    ended: bool,
    acs: PhantomData<A>,
}

impl<A: Acs, V: Survivors<L>, const L: usize> Model for Decoder<A, V, L> {
    ghost use Rattle.inner_decoder.specs.Seen.{DecoderState, IsTied, rows_below};

    ghost Value = { DecoderState };

    ghost view = { λ d. record {
      sums = d.metric;
      rows = rows_below (V.list d.survivors.inner.value) 64;
      waiting
          = V.count d.survivors.inner.value;
      steps = d.steps;
      ended = d.ended;
    } };

    ghost invariant = { λ d. IsTied (V.states d.survivors.inner.value) d.metric.alive (V.count d.survivors.inner.value)
        L };
}

impl<A: Acs, V: Survivors<L>, const L: usize> Decoder<A, V, L> {
    ghost use Rattle.inner_decoder.specs.Starts.{start_of};

    /// A decoder that has taken no pair. The only error is lack of memory.
    pub fn new(alloc: Global, start: StartState) -> Result<Self, AllocError>
        requires some { 0 < L }
        requires few { L ≤ 2048 }
        ensures going { IfOk result (λ d. d.ended ≡ false) }
        ensures steps { IfOk result (λ d. d.steps ≡ 0) }
        ensures waiting { IfOk result (λ d. d.waiting ≡ 0) }
        ensures stands { IfOk result (λ d. Stands L d (start_of start) [] []) }
        ensures reports { Reports L (start_of start) [] [] }
    {
        let metric = match start {
            StartState::Zero => Metric::only(0),
            StartState::Any => Metric::any(),
        };
        let survivors = Held::new(alloc, metric.alive())?;
        Ok(Decoder {
            metric,
            survivors,
            steps: 0,
            ended: false,
            acs: PhantomData,
        })
    }

    /// Takes the next pair, and appends bits that all alive paths share. It returns a report exactly at the steps of
    /// the defined reports, and has then appended all pending bits of the least path.
    ///
    /// There must be room for `L + 1` bits, and fewer than 2^62 steps so far; the decoder has not ended.
    pub fn step(&mut self, pair: CostPair, to: &mut WaitBuf) -> Option<Unmerged>
        requires going { self.old.ended ≡ false }
        requires steps { self.old.steps < 2 ^ 62 }
        requires room { length to.old + L < 36864 }
        ensures going { self.new.ended ≡ false }
        ensures steps { self.new.steps ≡ self.old.steps + 1 }
        ensures few { self.new.waiting ≤ L }
        ensures amount { length to.new + self.new.waiting ≡ length to.old + self.old.waiting + 1 }
        ensures spaced { self.new.waiting + (L + 1) * length (option_to_list result) ≤ self.old.waiting + 1 }
        ensures stepped { (a : Option (List Bool)) (c : List CostPair) (g : List Bool) → Stands L self.old a c g
            → Stepped L self.new a c g pair to.old to.new (at_of result) }
    {
        let decisions = self.metric.step::<A>(pair);
        self.survivors.push(decisions, self.metric.alive());
        self.steps += 1;
        settle(&mut self.metric, &mut self.survivors, self.steps, to)
    }

    /// Takes the first of these pairs in order, as many as may come before the next check for a report, and returns
    /// their number. Bits are appended and a report is returned as by `step` on each of them; only the last one can
    /// have a report.
    ///
    /// There must be a pair, room for `L + 1` bits, and fewer than 2^62 steps so far; the decoder has not ended.
    pub fn run_slice(&mut self, pairs: &[CostPair], to: &mut WaitBuf) -> (usize, Option<Unmerged>)
        requires some { 0 < length pairs.now }
        requires going { self.old.ended ≡ false }
        requires steps { self.old.steps < 2 ^ 62 }
        requires room { length to.old + L < 36864 }
        ensures some { 0 < result.0 }
        ensures within { result.0 ≤ length pairs.now }
        ensures going { self.new.ended ≡ false }
        ensures steps { self.new.steps ≡ self.old.steps + result.0 }
        ensures few { self.new.waiting ≤ L }
        ensures amount { length to.new + self.new.waiting ≡ length to.old + self.old.waiting + result.0 }
        ensures spaced { self.new.waiting + (L + 1) * length (option_to_list result.1) ≤ self.old.waiting + result.0 }
        ensures ran { (a : Option (List Bool)) (c : List CostPair) (g : List Bool) → Stands L self.old a c g
            → Ran L self.new a c g (take result.0 pairs.now) to.old to.new (option_to_list (at_of result.1)) }
    {
        let mut words = [0u64; SLICE];
        self.run_part(pairs, &mut words, to)
    }

    /// The same as `run_slice`, with space for the decision words, at least one; no clause depends on what it holds.
    pub(crate) fn run_part(
        &mut self,
        pairs: &[CostPair],
        words: &mut [u64],
        to: &mut WaitBuf,
    ) -> (usize, Option<Unmerged>)
        requires some { 0 < length pairs.now }
        requires space { 0 < length words.old }
        requires going { self.old.ended ≡ false }
        requires steps { self.old.steps < 2 ^ 62 }
        requires room { length to.old + L < 36864 }
        ensures space { length words.new ≡ length words.old }
        ensures some { 0 < result.0 }
        ensures within { result.0 ≤ length pairs.now }
        ensures going { self.new.ended ≡ false }
        ensures steps { self.new.steps ≡ self.old.steps + result.0 }
        ensures few { self.new.waiting ≤ L }
        ensures amount { length to.new + self.new.waiting ≡ length to.old + self.old.waiting + result.0 }
        ensures spaced { self.new.waiting + (L + 1) * length (option_to_list result.1) ≤ self.old.waiting + result.0 }
        ensures ran { (a : Option (List Bool)) (c : List CostPair) (g : List Bool) → Stands L self.old a c g
            → Ran L self.new a c g (take result.0 pairs.now) to.old to.new (option_to_list (at_of result.1)) }
    {
        if self.metric.alive() != u64::MAX {
            return (1, self.step(pairs[0], to));
        }
        let before = self.survivors.waiting() as usize;
        let count = pairs.len().min(L + 1 - before).min(words.len());
        self.metric.run::<A>(&pairs[..count], &mut words[..count]);
        self.steps += count as u64;
        let report = settle_all(
            &mut self.metric,
            &mut self.survivors,
            &words[..count],
            self.steps,
            to,
        );
        (count, report)
    }

    /// Appends the bits shared by all alive paths: all bits appended are then exactly the bits given of the definition.
    ///
    /// There must be room for `L` bits; the decoder has not ended.
    pub fn give(&mut self, to: &mut WaitBuf)
        requires going { self.old.ended ≡ false }
        requires room { length to.old + L ≤ 36864 }
        ensures going { self.new.ended ≡ false }
        ensures steps { self.new.steps ≡ self.old.steps }
        ensures few { self.new.waiting ≤ L }
        ensures amount { length to.new + self.new.waiting ≡ length to.old + self.old.waiting }
        ensures gave { (a : Option (List Bool)) (c : List CostPair) (g : List Bool) → Stands L self.old a c g
            → Gave L self.new a c g to.old to.new }
    {
        let common = self.survivors.shared();
        self.survivors.give(common, to);
    }

    /// Appends the pending bits of the least path: all bits appended are then exactly the bits at the end of the
    /// definition, and the decoder has ended.
    ///
    /// There must be room for `L` bits; the decoder has not ended.
    pub fn finish(&mut self, to: &mut WaitBuf)
        requires going { self.old.ended ≡ false }
        requires room { length to.old + L ≤ 36864 }
        ensures ended { self.new.ended ≡ true }
        ensures steps { self.new.steps ≡ self.old.steps }
        ensures waiting { self.new.waiting ≡ 0 }
        ensures amount { length to.new ≡ length to.old + self.old.waiting }
        ensures finished { (a : Option (List Bool)) (c : List CostPair) (g : List Bool) → Stands L self.old a c g
            → Finished L self.new a c g to.old to.new }
    {
        let last = self.metric.best();
        self.survivors.force(last, to);
        self.metric = Metric::only(last);
        self.ended = true;
    }

    /// Whether `finish` was called.
    pub fn ended(&self) -> bool
        ensures ended { result ≡ self.now.ended }
    {
        self.ended
    }
}

// The inner decoders of two streams in parallel.
ghost use Rattle.std.specs.Prelude.{IsTrue};
ghost use Rattle.std.specs.Fork.{AcceptsAt, ChangesAt};
ghost use Rattle.word_workers.specs.Symbols.{MayRunOver, HasRunOver};

use crate::gate::{Gate, Job};
use acs_plain::Acs;
use code_paths::CostPair;
use inner_decoder::Branch;
use std::marker::Send;
use std::thread::{Threads, join_mut};
use survivor_ring::Survivors;

/// The number of pairs of two streams from which a thread pays off. A thread costs 22 microseconds, as much as some
/// 3,000 steps.
const PAYS: usize = 10_000;

/// Enters the gate with the number of a decoder, and runs these pairs on it.
fn run_one_over<G: Gate, A: Acs, V: Survivors<2048>>(
    gate: &G,
    piece: u32,
    pairs: &[CostPair],
    branch: &mut Branch<A, V>,
)
    requires may { MayRunOver pairs.now branch.old }
    ensures has { HasRunOver pairs.now branch.old branch.new }
    ensures entered { IsTrue (G.has_entered gate.now Job.Inner piece) }
{
    gate.enter(Job::Inner, piece);
    branch.run_over(pairs);
}

/// Does the work on one of two items.
fn on_one<T, F: Fn(u32, &mut T)>(work: &F, piece: u32, thing: &mut T)
    requires { AcceptsAt F.Fn work.now piece thing.old }
    ensures { ChangesAt F.Fn work.now piece thing.old thing.new }
{
    work(piece, thing);
}

/// Does a piece of work on each of two items in parallel: piece 0 on the first, piece 1 on the second.
pub(crate) fn on_both<
    R: Threads + Sync,
    T: Send,
    F: Fn(u32, &mut T) + Sync,
    H: Fn(u32, &mut T) + Sync,
>(rt: &R, on_first: &F, on_second: &H, first: &mut T, second: &mut T)
    requires first { AcceptsAt F.Fn on_first.now 0 first.old }
    requires second { AcceptsAt H.Fn on_second.now 1 second.old }
    ensures first { ChangesAt F.Fn on_first.now 0 first.old first.new }
    ensures second { ChangesAt H.Fn on_second.now 1 second.old second.new }
{
    let mut front = ||
        requires { AcceptsAt F.Fn on_first.now 0 first.now }
        ensures { ChangesAt F.Fn on_first.entry.now 0 first.entry.now first.exit.now }
    { on_one(on_first, 0, first) };
    let mut back = ||
        requires { AcceptsAt H.Fn on_second.now 1 second.now }
        ensures { ChangesAt H.Fn on_second.entry.now 1 second.entry.now second.exit.now }
    { on_one(on_second, 1, second) };
    join_mut(rt, &mut front, &mut back);
}

/// Steps two decoders through the pairs of a symbol of their streams, in place, with the result of [`Branch::run_over`]
/// for each, for every gate.
///
/// Both meet the conditions of `run_over`. If the two have 10,000 pairs or more, as every symbol of the 8K mode has,
/// one of them runs in a thread of its own. With fewer pairs, or if no thread can be started, they run one after
/// another. HP enters the gate with [`Job::Inner`] and 0, LP with 1.
pub fn both_over<R: Threads + Sync, G: Gate, A: Acs + Send, V: Survivors<2048> + Send>(
    rt: &R,
    gate: &G,
    hp: &mut Branch<A, V>,
    hp_pairs: &[CostPair],
    lp: &mut Branch<A, V>,
    lp_pairs: &[CostPair],
)
    requires hp { MayRunOver hp_pairs.now hp.old }
    requires lp { MayRunOver lp_pairs.now lp.old }
    ensures hp { HasRunOver hp_pairs.now hp.old hp.new }
    ensures lp { HasRunOver lp_pairs.now lp.old lp.new }
    ensures hp_entered { IsTrue (G.has_entered gate.now Job.Inner 0) }
    ensures lp_entered { IsTrue (G.has_entered gate.now Job.Inner 1) }
{
    if hp_pairs.len() + lp_pairs.len() < PAYS {
        run_one_over(gate, 0, hp_pairs, hp);
        run_one_over(gate, 1, lp_pairs, lp);
        return;
    }
    let over_hp = |piece: u32, branch: &mut Branch<A, V>|
        requires { MayRunOver hp_pairs.now branch.now }
        ensures has { HasRunOver hp_pairs.entry.now branch.entry.now branch.exit.now }
        ensures entered { IsTrue (G.has_entered gate.entry.now Job.Inner piece) }
    { run_one_over(gate, piece, hp_pairs, branch) };
    let over_lp = |piece: u32, branch: &mut Branch<A, V>|
        requires { MayRunOver lp_pairs.now branch.now }
        ensures has { HasRunOver lp_pairs.entry.now branch.entry.now branch.exit.now }
        ensures entered { IsTrue (G.has_entered gate.entry.now Job.Inner piece) }
    { run_one_over(gate, piece, lp_pairs, branch) };
    on_both(rt, &over_hp, &over_lp, hp, lp);
}

// Two decoders run on the symbols that were loaded into them: a test compares what is faster with it.
ghost use Rattle.std.specs.Prelude.{IsTrue};
ghost use Rattle.word_workers.specs.Symbols.{MayRun, HasRun};

use crate::gate::{Gate, Job};
use crate::inner::on_both;
use acs_plain::Acs;
use inner_decoder::Branch;
use std::marker::Send;
use std::thread::Threads;
use survivor_ring::Survivors;

/// Enters the gate with the number of a decoder, and runs a symbol on it.
fn run_one<G: Gate, A: Acs, V: Survivors<2048>>(gate: &G, piece: u32, branch: &mut Branch<A, V>)
    requires may { MayRun branch.old }
    ensures has { HasRun branch.old branch.new }
    ensures entered { IsTrue (G.has_entered gate.now Job.Inner piece) }
{
    gate.enter(Job::Inner, piece);
    branch.run_symbol();
}

/// Runs a symbol on two decoders in parallel, with the result of [`Branch::run_symbol`] for each, for every gate.
///
/// Both meet the conditions of `run_symbol`. One of them runs in a thread of its own; if none can be started, they run
/// one after another. HP enters the gate with [`Job::Inner`] and 0, LP with 1.
pub fn both<R: Threads + Sync, G: Gate, A: Acs + Send, V: Survivors<2048> + Send>(
    rt: &R,
    gate: &G,
    hp: &mut Branch<A, V>,
    lp: &mut Branch<A, V>,
)
    requires hp { MayRun hp.old }
    requires lp { MayRun lp.old }
    ensures hp { HasRun hp.old hp.new }
    ensures lp { HasRun lp.old lp.new }
    ensures hp_entered { IsTrue (G.has_entered gate.now Job.Inner 0) }
    ensures lp_entered { IsTrue (G.has_entered gate.now Job.Inner 1) }
{
    let work = |piece: u32, branch: &mut Branch<A, V>|
        requires { MayRun branch.now }
        ensures has { HasRun branch.entry.now branch.exit.now }
        ensures entered { IsTrue (G.has_entered gate.entry.now Job.Inner piece) }
    { run_one(gate, piece, branch) };
    on_both(rt, &work, &work, hp, lp);
}

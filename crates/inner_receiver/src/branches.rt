// The decoders of the streams, symbol by symbol.
ghost use Rattle.std.specs.Prelude.{◌≡◌, ◌+◌, ◌<◌, ◌≤◌, ◌++◌, [], map, length, vec_len, vec_capacity, IfOk, false};
ghost use Rattle.mode_set.specs.declared.modes.Stream.TheVariants.{Hp, Lp};
ghost use Rattle.inner_decoder.specs.Events.{ats};
ghost use Rattle.inner_decoder.specs.Starts as inner;
ghost use Rattle.word_workers.specs.Symbols.{MayRunOver, HasRunOver};
ghost use Rattle.reception.specs.Streams.{so_far, start_of};
ghost use Rattle.reception.specs.Lines.{event_at};
ghost use Rattle.inner_receiver.specs.Branches.{HasGiven, HasTaken, HasEnded};

use acs_lanes::LaneAcs;
use conv_code::CostPair;
use inner_decoder::{Branch, StartState, Unmerged};
use mode_set::{Start, Stream};
use rx_report::Event;
use std::alloc::{AllocError, Global};
use std::thread::Threads;
use survivor_ring::RingSurvivors;
use word_workers::{Gate, both_over};

/// The decoder of one stream, with a path memory of 2048 steps.
pub type StreamBranch = Branch<LaneAcs, RingSurvivors<2048>>;

/// The start of a decoder.
pub fn start_state(start: Start) -> StartState
    ensures start { inner.start_of result ≡ start_of start }
{
    match start {
        Start::Zero => StartState::Zero,
        Start::Any => StartState::Any,
    }
}

/// The decoder of a stream that has received nothing. It has no space for pairs, since it steps through those of a
/// symbol in place. The only error is lack of memory.
pub fn begin(alloc: Global, start: Start) -> Result<StreamBranch, AllocError>
    ensures going { IfOk result (λ x. x.decoder.ended ≡ false) }
    ensures most { IfOk result (λ x. x.most ≡ 0) }
    ensures loaded { IfOk result (λ x. x.loaded ≡ []) }
    ensures wait { IfOk result (λ x. x.wait ≡ []) }
    ensures steps { IfOk result (λ x. x.decoder.steps ≡ 0) }
    ensures stands { IfOk result (λ x. HasGiven so_far x.decoder (start_of start) [] [] []) }
{
    reception::laws::nothing();
    let start = start_state(start);
    let branch = StreamBranch::new(alloc, start, 0)?;
    Ok(branch)
}

/// Steps both decoders through the pairs of their streams in a symbol, in parallel if there are two streams.
fn run<R: Threads + Sync, G: Gate>(
    rt: &R,
    gate: &G,
    hp_pairs: &[CostPair],
    lp_pairs: &[CostPair],
    hp: &mut StreamBranch,
    lp: &mut StreamBranch,
)
    requires hp { MayRunOver hp_pairs.now hp.old }
    requires lp { MayRunOver lp_pairs.now lp.old }
    ensures hp { HasRunOver hp_pairs.now hp.old hp.new }
    ensures lp { HasRunOver lp_pairs.now lp.old lp.new }
{
    if lp_pairs.is_empty() {
        hp.run_over(hp_pairs);
        lp.run_over(lp_pairs);
    } else {
        both_over(rt, gate, hp, hp_pairs, lp, lp_pairs);
    }
}

/// Appends the reports of a symbol.
fn push_events(stream: Stream, reports: &[Unmerged], to: &mut Vec<Event>)
    requires room { vec_len to.old + length reports.now ≤ vec_capacity to.old }
    ensures events { to.new.items ≡ to.old.items ++ map (event_at stream) (ats reports.now) }
    ensures len { vec_len to.new ≡ vec_len to.old + length reports.now }
    ensures capacity { vec_capacity to.new ≡ vec_capacity to.old }
{
    for report in reports {
        to.push_reserved(Event {
            stream,
            at: report.at,
        });
    }
}

/// Makes a step of each decoder for each pair of its stream in a symbol, in parallel if there are two streams, and
/// appends the reports, those of HP before those of LP. The bits decided by then are pending in the decoders. A stream
/// that the symbol does not have has no pair: its decoder makes no step and reports nothing.
///
/// Neither decoder has ended or has a pair loaded. There are at most 31,752 pairs of each stream, the steps of the
/// largest symbol; fewer than eight bits are pending and fewer than 2^61 steps were made in each, and there is room for
/// 32 reports.
pub fn take_symbol<R: Threads + Sync, G: Gate>(
    rt: &R,
    gate: &G,
    hp_pairs: &[CostPair],
    lp_pairs: &[CostPair],
    hp: &mut StreamBranch,
    lp: &mut StreamBranch,
    events: &mut Vec<Event>,
)
    requires hp { MayRunOver hp_pairs.now hp.old }
    requires lp { MayRunOver lp_pairs.now lp.old }
    requires room { vec_len events.old + 32 ≤ vec_capacity events.old }
    ensures hp { HasTaken hp_pairs.now hp.old hp.new }
    ensures lp { HasTaken lp_pairs.now lp.old lp.new }
    ensures hp_few { length hp.new.events ≤ 16 }
    ensures lp_few { length lp.new.events ≤ 16 }
    ensures events { events.new.items ≡ events.old.items ++ map (event_at Hp) (ats hp.new.events)
        ++ map (event_at Lp) (ats lp.new.events) }
    ensures capacity { vec_capacity events.new ≡ vec_capacity events.old }
{
    run(rt, gate, hp_pairs, lp_pairs, hp, lp);
    push_events(Stream::Hp, hp.events(), events);
    push_events(Stream::Lp, lp.events(), events);
}

/// Ends a stream: the remaining bits of its least path are pending in the decoder.
///
/// It has not ended, no pair is loaded, and fewer than eight bits are pending.
pub fn end(branch: &mut StreamBranch)
    requires going { branch.old.decoder.ended ≡ false }
    requires loaded { branch.old.loaded ≡ [] }
    requires wait { length branch.old.wait < 8 }
    ensures ended { HasEnded branch.old branch.new }
{
    branch.finish();
}

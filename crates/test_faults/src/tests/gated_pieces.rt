// Two workers and two decoders in parallel, seen by a gate, and the result of one thread.
ghost use Rattle.std.specs.Prelude.{◌≡◌, ◌≤◌, length, IfOk};
ghost use Rattle.word_workers.specs.Symbols.{MayRun};

use acs_plain::PlainAcs;
use conv_code::CostPair;
use inner_decoder::{Branch, StartState};
use outer_chain::WordSlot;
use rs204::{Outcome, encode};
use std::alloc::{AllocError, Global};
use std::test::Fail;
use std::thread::Threads;
use survivor_ring::RingSurvivors;
use test_runs::Meeting;
use word_workers::{Gate, OpenGate, both, both_over, decode_all};

/// A decoder of one stream.
type Plain = Branch<PlainAcs, RingSurvivors<2048>>;

/// A codeword with one wrong byte.
fn received(number: u8) -> WordSlot {
    let mut word = encode(&[number; 188]);
    word[200] ^= 0x51;
    WordSlot {
        word,
        outcome: Outcome::Bad,
    }
}

#[test]
fn two_workers_at_once(rt: HostRuntime) -> Result<(), Fail> {
    let gate = Meeting::new();
    let mut slots = [received(0), received(1)];
    decode_all(&rt, 2, &gate, &mut slots);
    assert!(rt; gate.outer.have_met() && !gate.inner.seen());
    for (slot, number) in slots.iter().zip([0u8, 1]) {
        assert!(rt; slot.outcome == Outcome::Corrected(1) && slot.word == encode(&[number; 188]));
    }
    Ok(())
}

/// 5,000 pairs: those of a path of zeros, or some that fit no path.
fn some_pairs(alloc: Global, clean: bool) -> Result<Vec<CostPair>, AllocError>
    ensures { IfOk result (λ v. length v.items ≡ 5000) }
{
    let mut pairs = Vec::with_capacity(alloc, 5000)?;
    for k in 0..5000u32 {
        let x1 = if clean { 900 } else { k * 37 % 1000 };
        pairs.push(CostPair {
            x0: 500,
            x1: 500 + x1 as u16,
            y0: 1000,
            y1: 1500,
        })?;
    }
    Ok(pairs)
}

/// A decoder with these pairs loaded.
fn loaded(alloc: Global, pairs: &[CostPair]) -> Result<Plain, AllocError>
    requires { length pairs.now ≤ 5000 }
    ensures { IfOk result (λ b. MayRun b) }
{
    let mut branch = Plain::new(alloc, StartState::Zero, 5000)?;
    branch.load_all(pairs);
    Ok(branch)
}

/// The result of one decoder for these pairs, loaded and run alone.
fn run_alone(alloc: Global, pairs: &[CostPair]) -> Result<Plain, AllocError>
    requires { length pairs.now ≤ 5000 }
{
    let mut branch = loaded(alloc, pairs)?;
    branch.run_symbol();
    Ok(branch)
}

/// Whether both have the same pending bits and the same reports.
fn same_bits(one: &mut Plain, other: &mut Plain) -> bool {
    let waiting = one.waiting();
    if waiting != other.waiting() || one.events() != other.events() {
        return false;
    }
    for _k in 0..waiting / 8 {
        if one.take_byte() != other.take_byte() {
            return false;
        }
    }
    true
}

#[test]
fn two_decoders_at_once(rt: HostRuntime) -> Result<(), Fail> {
    let alloc = rt.alloc();
    let (hp_pairs, lp_pairs) = (some_pairs(alloc, true)?, some_pairs(alloc, false)?);
    let gate = Meeting::new();
    let (mut hp, mut lp) = (loaded(alloc, &hp_pairs)?, loaded(alloc, &lp_pairs)?);
    both(&rt, &gate, &mut hp, &mut lp);
    assert!(rt; gate.inner.have_met() && !gate.outer.seen());
    assert!(rt; hp.waiting() > 0);
    assert!(rt; same_bits(&mut hp, &mut run_alone(alloc, &hp_pairs)?));
    assert!(rt; same_bits(&mut lp, &mut run_alone(alloc, &lp_pairs)?));
    Ok(())
}

/// Whether two decoders that step through these pairs in parallel give the result of one that loads them alone.
fn same_over<R: Threads + Sync, G: Gate>(
    rt: &R,
    alloc: Global,
    gate: &G,
    hp_pairs: &[CostPair],
    lp_pairs: &[CostPair],
) -> Result<bool, AllocError>
    requires hp { length hp_pairs.now ≤ 5000 }
    requires lp { length lp_pairs.now ≤ 5000 }
{
    let mut hp = Plain::new(alloc, StartState::Zero, 0)?;
    let mut lp = Plain::new(alloc, StartState::Zero, 0)?;
    both_over(rt, gate, &mut hp, hp_pairs, &mut lp, lp_pairs);
    let (mut hp_alone, mut lp_alone) = (run_alone(alloc, hp_pairs)?, run_alone(alloc, lp_pairs)?);
    Ok(same_bits(&mut hp, &mut hp_alone) && same_bits(&mut lp, &mut lp_alone))
}

#[test]
fn two_decoders_where_pairs_lie(rt: HostRuntime) -> Result<(), Fail> {
    let alloc = rt.alloc();
    let (hp_pairs, lp_pairs) = (some_pairs(alloc, true)?, some_pairs(alloc, false)?);
    let gate = Meeting::new();
    assert!(rt; same_over(&rt, alloc, &gate, &hp_pairs, &lp_pairs)?);
    assert!(rt; gate.inner.have_met() && !gate.outer.seen());
    assert!(rt; same_over(&rt, alloc, &OpenGate, &lp_pairs, &hp_pairs)?);
    assert!(rt; same_over(&rt, alloc, &OpenGate, &[], &lp_pairs)?);
    Ok(())
}

// Receivers that are fed pieces, with and without a gate. What comes back is what was sent: null packets.
ghost use Rattle.std.specs.Prelude.{◌≡◌, ◌≤◌};
ghost use Rattle.mode_set.specs.declared.modes.Mode.{Mode};

use super::sending::{
    SYMBOL, WIDE_SYMBOL, null_symbols, nulls, settings, wide_null_symbols, wide_settings,
};
use crate::{Cut, Received, Reception};
use mode_set::{Carriers, Mode2k, Mode8k, Settings, Start};
use receiver::RxOut;
use std::alloc::{AllocError, Global};
use std::sync::atomic::{AtomicU64, Ordering};
use std::test::Fail;
use std::thread::Threads;
use word_workers::{Gate, Job};

/// A gate that counts the pieces of each job.
#[derive(Drop)]
struct Counting {
    outer: AtomicU64,
    inner: AtomicU64,
}

impl Counting {
    fn new() -> Counting {
        Counting {
            outer: AtomicU64::new(0),
            inner: AtomicU64::new(0),
        }
    }

    fn counts(&self) -> (u64, u64) {
        (
            self.outer.load(Ordering::SeqCst),
            self.inner.load(Ordering::SeqCst),
        )
    }
}

impl Gate for Counting {
    ghost use Rattle.std.specs.Prelude.{true};

    ghost has_entered = { λ _ _ _. true };

    fn enter(&self, job: Job, _piece: u32) {
        match job {
            Job::Outer => self.outer.fetch_add(1, Ordering::SeqCst),
            Job::Inner => self.inner.fetch_add(1, Ordering::SeqCst),
        };
    }
}

// How many null packets of HP a call gave; none if anything else was given.
fn nulls_of(out: &RxOut) -> usize {
    if out.lp().is_empty() && out.events().is_empty() {
        nulls(out.hp())
    } else {
        0
    }
}

// Five symbols of 6,048 bits have 18 whole words, of which eleven are the start-up.
#[test]
fn wide_symbols_cut_anywhere(rt: HostRuntime) -> Result<(), Fail> {
    let alloc = rt.alloc();
    let bytes = wide_null_symbols(&rt, alloc, 5)?;
    let settings = wide_settings();
    let whole = Received::of::<Mode8k, _>(&rt, alloc, &settings, &bytes, Cut::Size(WIDE_SYMBOL))?;
    assert_eq!(rt;
        (bytes.len(), whole.taken, whole.ends.len(), whole.quiet),
        (170_425, 170_425, 6, true)
    );
    assert_eq!(rt;
        (
            nulls(&whole.hp),
            whole.lp.len(),
            whole.events.len(),
            whole.counts.hp.clean
        ),
        (7, 0, 0, 7)
    );
    for size in [1, 3, 997, 34_084, 34_086, 100_000] {
        let other = Received::of::<Mode8k, _>(&rt, alloc, &settings, &bytes, Cut::Size(size))?;
        assert!(rt; other == whole, "pieces of {size} bytes");
    }
    Ok(())
}

// Feeds the bytes in pieces of this size through the gate: the null packets so far.
fn feed_all<M: Carriers, R: Threads + Sync, G: Gate>(
    rt: &R,
    gate: &G,
    reception: &mut Reception<M>,
    bytes: &[u8],
    size: usize,
) -> usize {
    let mut begin = 0usize;
    let mut sum = 0usize;
    for _ in 0..bytes.len() {
        let rest = &bytes[begin.min(bytes.len())..];
        if !rest.is_empty() {
            let count = reception.feed_gated(rt, gate, &rest[..size.min(rest.len())]);
            begin = begin.saturating_add(count);
            sum = sum.saturating_add(nulls_of(reception.out()));
        }
    }
    sum
}

/// What came through a gate: the null packets before the end and in all, and how often the gate was entered for an
/// outer word and for an inner decoder.
type Gated = (usize, usize, u64, u64);

// A new receiver that is fed through a gate which counts.
fn gated<M: Carriers, R: Threads + Sync>(
    rt: &R,
    alloc: Global,
    settings: &Settings,
    bytes: &[u8],
    size: usize,
) -> Result<Gated, AllocError>
    requires { settings.now.mode ≡ M.MODE }
{
    let gate = Counting::new();
    let mut reception = Reception::<M>::begin(alloc, settings)?;
    let before = feed_all(rt, &gate, &mut reception, bytes, size);
    reception.finish(rt);
    let last = nulls_of(reception.out());
    let (outer, inner) = gate.counts();
    Ok((before, before.saturating_add(last), outer, inner))
}

// The settings of the 2K mode with this number of workers.
fn by_workers(workers: u8) -> Settings
    requires some { 1 ≤ workers }
    requires few { workers ≤ 16 }
    ensures { result.mode ≡ Mode.M2k }
{
    let mut settings = settings(Start::Zero);
    settings.workers = workers;
    settings
}

// The output through the gate with this number of workers.
fn passed<R: Threads + Sync>(
    rt: &R,
    alloc: Global,
    bytes: &[u8],
    workers: u8,
    size: usize,
) -> Result<Gated, AllocError>
    requires some { 1 ≤ workers }
    requires few { workers ≤ 16 }
{
    gated::<Mode2k, R>(rt, alloc, &by_workers(workers), bytes, size)
}

// Whatever the workers and the pieces are, the gate is entered once for each outer word before the end, and by no
// inner decoder, since there is one stream. A frame of 68 symbols of 1,512 bits has 63 words, of which eleven are the
// start-up; the last one ends with it.
#[test]
fn words_pass_the_gate(rt: HostRuntime) -> Result<(), Fail> {
    let alloc = rt.alloc();
    let bytes = null_symbols(&rt, alloc, 68)?;
    assert_eq!(rt; passed(&rt, alloc, &bytes, 1, SYMBOL)?, (51, 52, 51, 0));
    assert_eq!(rt; passed(&rt, alloc, &bytes, 3, 997)?, (51, 52, 51, 0));
    assert_eq!(rt; passed(&rt, alloc, &bytes, 16, 20_000)?, (51, 52, 51, 0));
    Ok(())
}

#[test]
fn wide_words_pass_the_gate(rt: HostRuntime) -> Result<(), Fail> {
    let alloc = rt.alloc();
    let bytes = wide_null_symbols(&rt, alloc, 5)?;
    for size in [997, WIDE_SYMBOL] {
        let given = gated::<Mode8k, _>(&rt, alloc, &wide_settings(), &bytes, size)?;
        assert!(rt; given == (7, 7, 7, 0), "pieces of {size} bytes");
    }
    Ok(())
}

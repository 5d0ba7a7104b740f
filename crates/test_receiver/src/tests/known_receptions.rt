// Receptions with known outcomes.
use super::sending::{SYMBOL, null_symbols, nulls, settings};
use crate::{Cut, Received, Reception};
use mode_set::{Mode2k, Start, Stream};
use rx_report::{Counts, Event, StreamCounts};
use std::alloc::{AllocError, Global};
use std::process::Abort;
use std::rt::HostRuntime;
use std::test::Fail;
use std::thread::Threads;

// The checks of a reception: how often there was output, the bytes of HP, those given at the end, whether all packets
// are null packets with no packet of LP and no report, and whether there was no output between two symbols.
type Summary = (usize, usize, usize, bool, bool);

// The reception of bytes that begin with the start of a transmission.
fn received<R: Threads + Sync>(
    rt: &R,
    alloc: Global,
    bytes: &[u8],
    size: usize,
) -> Result<Received, AllocError> {
    Received::of::<Mode2k, R>(rt, alloc, &settings(Start::Zero), bytes, Cut::Size(size))
}

fn summary(received: &Received) -> Summary {
    let mut sum = 0usize;
    let mut last = 0usize;
    for (hp, _, _) in &received.ends {
        last = hp.saturating_sub(sum);
        sum = *hp;
    }
    let nothing_else = received.lp.is_empty() && received.events.is_empty();
    let all_null = nulls(&received.hp) == received.hp.len() / 188;
    (
        received.ends.len(),
        sum,
        last,
        all_null && nothing_else,
        received.quiet,
    )
}

// Sixteen symbols, and three bytes.
fn sixteen_symbols(rt: &impl Abort, alloc: Global) -> Result<Vec<u8>, AllocError> {
    let mut bytes = null_symbols(rt, alloc, 16)?;
    bytes.extend_from_slice(&[1, 2, 3])?;
    Ok(bytes)
}

// After each symbol and at the end the output is the same, however the bytes are divided: 16 symbols of 1512 bits have
// 14 whole words, of which eleven are the start-up, and the last whole word is output at the end.
#[test]
fn pieces_of_any_size(rt: HostRuntime) -> Result<(), Fail> {
    let alloc = rt.alloc();
    let bytes = sixteen_symbols(&rt, alloc)?;
    let whole = received(&rt, alloc, &bytes, SYMBOL)?;
    let (given, sum, last, _, quiet) = summary(&whole);
    assert_eq!(rt; (given, sum.wrapping_sub(last), quiet), (17, 3 * 188, true));
    for size in [1usize, 997, 8524, 8526, 20000] {
        let other = received(&rt, alloc, &bytes, size)?;
        assert!(rt; other == whole, "pieces of {size} bytes");
    }
    Ok(())
}

// The super-frame of null packets, byte by byte and by whole symbols: the output after each of its 272 symbols is the
// same, 240 packets in all, and at the end the last one.
#[test]
fn null_super_frame_byte_by_byte(rt: HostRuntime) -> Result<(), Fail> {
    let alloc = rt.alloc();
    let bytes = null_symbols(&rt, alloc, 272)?;
    let whole = received(&rt, alloc, &bytes, SYMBOL)?;
    let narrow = received(&rt, alloc, &bytes, 1)?;
    assert_eq!(rt;
        (whole.taken, summary(&whole)),
        (2_318_800, (273, 241 * 188, 188, true, true))
    );
    assert!(rt; narrow == whole && whole.counts == clean_counts());
    Ok(())
}

// The counts of the super-frame of null packets: 241 words, none of which needed a correction.
fn clean_counts() -> Counts {
    Counts {
        symbols: 272,
        tail: 0,
        tps_read: 4,
        tps_bad: 0,
        hp: StreamCounts {
            words: 241,
            clean: 241,
            corrected: 0,
            bad: 0,
            unphased: 0,
            unmerged: 0,
        },
        lp: None,
    }
}

// A symbol of the 2K mode whose cells are all (0, 11585).
fn lopsided_symbol(alloc: Global) -> Result<Vec<u8>, AllocError> {
    let mut bytes = Vec::new(alloc);
    for _ in 0..1705u16 {
        bytes.extend_from_slice(&[0x00, 0x00, 0x2D, 0x41, 0x0F])?;
    }
    Ok(bytes)
}

/// Two symbols from any register.
#[derive(Drop)]
struct Unmerged {
    /// The state after each, and at the end.
    stands: [(u64, usize, usize); 3],
    /// The decoder of HP after the second, and at the end.
    decoder: [(u32, bool); 2],
    /// Whether the second gave one report of HP at step 2,049, and no other.
    is_reported: bool,
    /// The counts at the end.
    counts: Counts,
}

fn receive_twice<R: Threads + Sync>(
    rt: &R,
    alloc: Global,
    bytes: &[u8],
) -> Result<Unmerged, AllocError> {
    let mut reception = Reception::<Mode2k>::begin(alloc, &settings(Start::Any))?;
    reception.feed(rt, bytes);
    let one = reception.stands();
    reception.feed(rt, bytes);
    let two = reception.stands();
    let going = reception.decoder();
    let is_reported = is_only_report(reception.out().events(), Stream::Hp, 2049);
    reception.finish(rt);
    Ok(Unmerged {
        stands: [one, two, reception.stands()],
        decoder: [going, reception.decoder()],
        is_reported,
        counts: reception.counts(),
    })
}

// Whether this is the only report.
fn is_only_report(reports: &[Event], stream: Stream, at: u64) -> bool {
    match reports.first() {
        Some(report) => reports.len() == 1 && report.stream == stream && report.at == at,
        None => false,
    }
}

// Two such symbols, from any register: the paths do not merge.
#[test]
fn unmerged_at_2049(rt: HostRuntime) -> Result<(), Fail> {
    let alloc = rt.alloc();
    let bytes = lopsided_symbol(alloc)?;
    let found = receive_twice(&rt, alloc, &bytes)?;
    assert_eq!(rt;
        (found.stands, found.decoder),
        ([(1, 0, 0), (2, 0, 1), (2, 0, 0)], [(0, false), (0, true)])
    );
    assert!(rt; found.is_reported && found.counts == unmerged_counts());
    Ok(())
}

// The counts of two symbols without a word, with one unmerged report.
fn unmerged_counts() -> Counts {
    Counts {
        symbols: 2,
        tail: 0,
        tps_read: 0,
        tps_bad: 0,
        hp: StreamCounts {
            words: 0,
            clean: 0,
            corrected: 0,
            bad: 0,
            unphased: 0,
            unmerged: 1,
        },
        lp: None,
    }
}

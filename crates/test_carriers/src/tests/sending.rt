// The symbols for given bytes: their labels, and the bytes of their cells.
ghost use Rattle.std.specs.Prelude.{◌≡◌, ◌<◌, ◌≤◌, ℕ, IsTrue, get_or, length, ◌^◌};
ghost use Rattle.mode_set.specs.StreamTable.{label_bits};

use bit_pack::WaitBuf;
use frame_build::SymbolOut;
use inner_chain::InnerTx;
use mode_set::{Carriers, Mode, Mode2k, Mode8k, Settings, Shape, Stream};
use std::alloc::Global;
use std::process::Abort;
use std::slice::Iter;
use test_tools::next_byte;

/// The first bytes of the generator's stream, enough for four symbols of any settings.
pub(crate) fn drawn_bytes(rt: &impl Abort, alloc: Global, state: u32) -> Vec<u8> {
    let mut state = state;
    let mut bytes = vec![in alloc; 0u8; 16000].expect(rt, "memory");
    for byte in &mut bytes {
        *byte = next_byte(&mut state);
    }
    bytes
}

// The pending bits of a stream, and the bytes after them.
#[derive(Drop)]
struct Waiting<'a> {
    bits: WaitBuf,
    bytes: Iter<'a, u8>,
}

fn stream_of(bytes: &[u8]) -> Waiting<'_> {
    Waiting {
        bits: WaitBuf::new(),
        bytes: bytes.iter(),
    }
}

// Takes bytes until `count` bits are pending.
fn fill(rt: &impl Abort, waiting: &mut Waiting<'_>, count: u32)
    ensures { count ≤ length waiting.new.bits }
{
    for _ in 0..4608u32 {
        if waiting.bits.waiting() < 36000 && waiting.bits.waiting() < count as usize {
            if let Some(byte) = waiting.bytes.next() {
                waiting.bits.push_byte(*byte);
            }
        }
    }
    assert!(rt; waiting.bits.waiting() >= count as usize);
}

// The labels of the next symbol.
fn next_labels<M: Carriers>(
    rt: &impl Abort,
    alloc: Global,
    settings: &Settings,
    tx: &mut InnerTx<M>,
    odd: bool,
    hp: &mut Waiting<'_>,
    lp: &mut Waiting<'_>,
) -> Vec<u8>
    requires { tx.old.settings.mode ≡ settings.now.mode }
    ensures { tx.new.settings.mode ≡ settings.now.mode }
{
    let entry = settings.top();
    fill(rt, hp, tx.need(&entry, Stream::Hp));
    fill(rt, lp, tx.need(&entry, Stream::Lp));
    let mut labels = Vec::with_capacity(alloc, settings.mode.payload() as usize).expect(
        rt, "memory",
    );
    tx.labels(&entry, odd, &mut hp.bits, &mut lp.bits, &mut labels);
    labels
}

/// The labels of symbols, one for each entry of a list that says whether it is odd. They have the parameters of these
/// settings, whatever the coder began with, and the streams these bytes.
pub(crate) fn labels_of<M: Carriers>(
    rt: &impl Abort,
    alloc: Global,
    settings: &Settings,
    tx: &mut InnerTx<M>,
    odd: &[bool],
    streams: (&[u8], &[u8]),
) -> Vec<Vec<u8>>
    requires { tx.old.settings.mode ≡ settings.now.mode }
    ensures { tx.new.settings.mode ≡ settings.now.mode }
{
    let (mut hp, mut lp) = (stream_of(streams.0), stream_of(streams.1));
    let mut symbols = Vec::new(alloc);
    for odd in odd {
        let labels = next_labels(rt, alloc, settings, tx, *odd, &mut hp, &mut lp);
        symbols.push(labels).expect(rt, "memory");
    }
    symbols
}

fn are_below(labels: &[u8], bound: u8) -> bool
    ensures { IsTrue result → (q : ℕ) → q < length labels.now → get_or labels.now q 0 < bound }
{
    labels.iter().all(|label| *label < bound)
}

fn bound_of(shape: Shape) -> u8
    ensures { result ≡ 2 ^ label_bits shape }
{
    match shape {
        Shape::Qpsk => 4,
        Shape::Qam16 => 16,
        Shape::Qam64 => 64,
    }
}

// The bytes of the next symbol's cells.
fn next_bytes<M: Carriers>(
    rt: &impl Abort,
    alloc: Global,
    settings: &Settings,
    out: &mut SymbolOut<M>,
    labels: &[u8],
) -> Vec<u8> {
    let entry = settings.top();
    let small = are_below(labels, bound_of(settings.shape));
    assert!(rt; small && labels.len() == M::NMAX as usize);
    let mut bytes = Vec::with_capacity(alloc, 5 * M::K as usize).expect(rt, "memory");
    out.write(&entry, &entry, labels, &mut bytes);
    bytes
}

// The bytes of the first symbols.
fn first_bytes<M: Carriers>(
    rt: &impl Abort,
    alloc: Global,
    settings: &Settings,
    labels: &[Vec<u8>],
) -> Vec<Vec<u8>>
    requires { settings.now.mode ≡ M.MODE }
{
    let mut out = SymbolOut::<M>::new(settings);
    let mut symbols = Vec::new(alloc);
    for labels in labels {
        let bytes = next_bytes(rt, alloc, settings, &mut out, labels);
        symbols.push(bytes).expect(rt, "memory");
    }
    symbols
}

// The bytes from a coder made for these settings.
fn sent_by<M: Carriers>(
    rt: &impl Abort,
    alloc: Global,
    settings: &Settings,
    odd: &[bool],
    streams: (&[u8], &[u8]),
) -> Vec<Vec<u8>>
    requires { settings.now.mode ≡ M.MODE }
{
    let mut tx = InnerTx::<M>::new(alloc, settings).expect(rt, "memory");
    let labels = labels_of(rt, alloc, settings, &mut tx, odd, streams);
    first_bytes::<M>(rt, alloc, settings, &labels)
}

/// The bytes of the first symbols of a transmission whose streams have these bytes.
pub(crate) fn first_symbols(
    rt: &impl Abort,
    alloc: Global,
    settings: &Settings,
    odd: &[bool],
    streams: (&[u8], &[u8]),
) -> Vec<Vec<u8>> {
    match settings.mode {
        Mode::M2k => sent_by::<Mode2k>(rt, alloc, settings, odd, streams),
        Mode::M8k => sent_by::<Mode8k>(rt, alloc, settings, odd, streams),
    }
}

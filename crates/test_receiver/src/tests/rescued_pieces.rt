// A receiver that rescues words and is fed pieces. What comes back is what was sent: null packets.
use super::sending::{SYMBOL, null_symbols, settings};
use mode_set::{Mode2k, Start};
use rescue::{Rescue, RxOut};
use std::alloc::{AllocError, Global};
use std::process::Abort;
use std::test::Fail;
use std::thread::Threads;
use ts_packet::Packet;

// Appends the bytes of the packets that a call gave. No packet of LP and no report may stand beside them.
fn note(rt: &impl Abort, out: &RxOut, given: &mut Vec<u8>) -> Result<(), AllocError> {
    assert!(rt; out.lp().is_empty() && out.events().is_empty());
    given.extend_from_slice(out.hp())?;
    Ok(())
}

// Feeds the bytes of whole symbols in pieces of this size, and ends; appends the packets.
fn feed_all<R: Abort + Threads + Sync>(
    rt: &R,
    rescue: &mut Rescue<Mode2k>,
    out: &mut RxOut,
    bytes: &[u8],
    size: usize,
    given: &mut Vec<u8>,
) -> Result<(), AllocError> {
    assert!(rt; 0 < size);
    let mut begin = 0usize;
    for _ in 0..bytes.len() {
        if begin >= bytes.len() {
            break;
        }
        let end = begin + size.min(bytes.len() - begin);
        assert!(rt; !rescue.ended() && rescue.symbols() < 1_000);
        let count = rescue.feed(rt, &bytes[begin..end], out);
        assert!(rt; 0 < count && count <= end - begin);
        begin += count;
        note(rt, out, given)?;
    }
    assert!(rt; !rescue.ended());
    rescue.finish(out);
    assert!(rt; rescue.ended() && rescue.symbols() == (bytes.len() / SYMBOL) as u64);
    note(rt, out, given)
}

// A new receiver that is fed so: the bytes of its packets.
fn rescued<R: Abort + Threads + Sync>(
    rt: &R,
    alloc: Global,
    bytes: &[u8],
    size: usize,
) -> Result<Vec<u8>, AllocError> {
    let mut given = Vec::new(alloc);
    let mut out = RxOut::new(alloc)?;
    let mut rescue = Rescue::<Mode2k>::new(alloc, &settings(Start::Zero))?;
    let result = feed_all(rt, &mut rescue, &mut out, bytes, size, &mut given);
    result.map(|()| given)
}

// Sixteen symbols of 1,512 bits have 14 whole words, of which eleven are the start-up.
#[test]
fn rescue_of_symbols_cut_anywhere(rt: HostRuntime) -> Result<(), Fail> {
    let alloc = rt.alloc();
    let bytes = null_symbols(&rt, alloc, 16)?;
    let null = Packet::null();
    let mut sent = Vec::new(alloc);
    for _ in 0..3 {
        sent.extend_from_slice(null.bytes().as_slice())?;
    }
    for size in [1, 3, 997, SYMBOL - 1, SYMBOL, SYMBOL + 1, 20_000] {
        let given = rescued(&rt, alloc, &bytes, size)?;
        assert!(rt;
            given.as_slice() == sent.as_slice(),
            "pieces of {size} bytes"
        );
    }
    Ok(())
}

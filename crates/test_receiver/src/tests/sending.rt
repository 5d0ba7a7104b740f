// The symbols of null packets.
ghost use Rattle.std.specs.Prelude.{◌≡◌};

use mode_set::{Carriers, Mode, Mode2k, Mode8k, Rate, Settings, Shape, Start};
use modulator::{Modulator, Want};
use std::alloc::{AllocError, Global};
use std::process::Abort;
use test_tools::flat;
use ts_packet::Packet;

/// The bytes of a symbol of the 2K mode.
pub(crate) const SYMBOL: usize = 8525;

/// The bytes of a symbol of the 8K mode, the room for a symbol of either mode.
pub(crate) const WIDE_SYMBOL: usize = 34085;

/// QPSK at 1/2 in the 2K mode.
pub(crate) fn settings(start: Start) -> Settings
    ensures { result.mode ≡ Mode.M2k }
{
    let mut settings = flat(Mode::M2k, Shape::Qpsk, Rate::R1of2);
    settings.start = start;
    settings
}

/// QPSK at 1/2 in the 8K mode.
pub(crate) fn wide_settings() -> Settings
    ensures { result.mode ≡ Mode.M8k }
{
    flat(Mode::M8k, Shape::Qpsk, Rate::R1of2)
}

// Puts a null packet where HP wants one.
fn put_null<M: Carriers>(tx: &mut Modulator<M>) {
    if tx.wants() == Want::Hp {
        tx.put(&Packet::null());
    }
}

// The bytes of the next symbol, whose packets were put.
fn symbol_of<M: Carriers>(
    rt: &impl Abort,
    alloc: Global,
    tx: &mut Modulator<M>,
) -> Result<Vec<u8>, AllocError> {
    let mut to = Vec::with_capacity(alloc, WIDE_SYMBOL)?;
    assert!(rt; tx.wants() == Want::Symbol);
    assert!(rt; tx.made() < 4294967296);
    tx.symbol(&mut to);
    Ok(to)
}

// Appends the bytes of the next symbols. A symbol wants five packets at most.
fn push_symbols<M: Carriers>(
    rt: &impl Abort,
    alloc: Global,
    tx: &mut Modulator<M>,
    count: u16,
    bytes: &mut Vec<u8>,
) -> Result<(), AllocError> {
    for _ in 0..count {
        for _ in 0..5 {
            put_null(tx);
        }
        let symbol = symbol_of(rt, alloc, tx)?;
        bytes.extend_from_slice(&symbol)?;
    }
    Ok(())
}

/// The bytes of the first symbols that carry null packets.
pub(crate) fn null_symbols(
    rt: &impl Abort,
    alloc: Global,
    count: u16,
) -> Result<Vec<u8>, AllocError> {
    let mut bytes = Vec::new(alloc);
    let mut tx = Modulator::<Mode2k>::new(alloc, &settings(Start::Zero))?;
    push_symbols(rt, alloc, &mut tx, count, &mut bytes)?;
    Ok(bytes)
}

/// The same in the 8K mode.
pub(crate) fn wide_null_symbols(
    rt: &impl Abort,
    alloc: Global,
    count: u16,
) -> Result<Vec<u8>, AllocError> {
    let mut bytes = Vec::new(alloc);
    let mut tx = Modulator::<Mode8k>::new(alloc, &wide_settings())?;
    push_symbols(rt, alloc, &mut tx, count, &mut bytes)?;
    Ok(bytes)
}

/// How many null packets these bytes are; none if one is another packet.
pub(crate) fn nulls(packets: &[u8]) -> usize {
    let null = Packet::null();
    for packet in packets.chunks(188) {
        if packet != null.bytes().as_slice() {
            return 0;
        }
    }
    packets.len() / 188
}

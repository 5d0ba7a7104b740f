// The trial of a number against `receive` of a file of the cells that it feeds, which are made again here.
ghost use Rattle.std.specs.Prelude.{◌≡◌};

use super::cells::{HEADER, SYMBOL, number_at, put_number};
use load_gen::Load;
use mode_set::{Mode, Mode2k, Rate, Settings, Shape};
use modulator::{Modulator, Want};
use pilots::CarrierKind::Payload;
use pilots::kind;
use std::alloc::{AllocError, Global};
use std::process::Abort;
use std::test::Fail;
use std::thread::Threads;
use test_runs::{BASE, Ran, ample, run_files, text_bytes};
use test_tools::flat;
use ts_packet::Packet;

/// The most by which a data cell of QPSK is moved on each axis.
const TOLERANCE: u16 = 5792;

/// What `BASE` states.
fn base() -> Settings
    ensures { result.mode ≡ Mode.M2k }
{
    flat(Mode::M2k, Shape::Qpsk, Rate::R1of2)
}

// The next packet: a random one while any is left, then a null packet.
fn next_packet(load: &mut Load, left: &mut u32) -> Packet {
    if *left == 0 {
        return Packet::null();
    }
    *left -= 1;
    load.packet()
}

// Puts the next packet if one is wanted.
fn put_next(load: &mut Load, left: &mut u32, tx: &mut Modulator<Mode2k>) {
    if tx.wants() == Want::Hp {
        let packet = next_packet(load, left);
        tx.put(&packet);
    }
}

// The next symbol. It needs at most two packets.
fn sent(
    rt: &impl Abort,
    alloc: Global,
    load: &mut Load,
    left: &mut u32,
    tx: &mut Modulator<Mode2k>,
) -> Result<Vec<u8>, AllocError> {
    put_next(load, left, tx);
    put_next(load, left, tx);
    let mut symbol = Vec::with_capacity(alloc, SYMBOL)?;
    assert!(rt; tx.wants() == Want::Symbol && tx.made() < 272);
    tx.symbol(&mut symbol);
    Ok(symbol)
}

// A part of a cell: moved by the next shift, and in every seventeenth symbol then negated.
fn disturbed(part: i16, symbol: usize, load: &mut Load) -> i16 {
    let moved = part.wrapping_add(load.shift(TOLERANCE));
    if symbol % 17 == 16 {
        0i16.wrapping_sub(moved)
    } else {
        moved
    }
}

// Disturbs the data cells of a symbol, the real part before the imaginary one.
fn disturb(rt: &impl Abort, cells: &mut [u8], symbol: usize, load: &mut Load) {
    let l = (symbol % 68) as u8;
    for k in 0..1705u32 {
        if let Payload(_) = kind(Mode::M2k, l, k) {
            let at = 5 * k as usize;
            for place in [at, at + 2] {
                let part = number_at(rt, cells, place);
                put_number(rt, cells, place, disturbed(part, symbol, load));
            }
        }
    }
}

// Generates the lengths of the pieces in which a symbol is fed.
fn draw_pieces(load: &mut Load) {
    let mut rest = SYMBOL as u32;
    for _ in 0..SYMBOL {
        if rest > 0 {
            rest -= load.piece(rest);
        }
    }
}

// The cells that the trial of a number feeds, and the number of packets it generates.
fn fed(rt: &impl Abort, alloc: Global, number: u32) -> Result<(Vec<u8>, u32), AllocError> {
    let mut load = Load::start(number);
    let packets = load.count();
    let mut left = packets;
    let mut tx = Modulator::<Mode2k>::new(alloc, &base())?;
    let mut cells = Vec::new(alloc);
    for symbol in 0..272usize {
        let mut next = sent(rt, alloc, &mut load, &mut left, &mut tx)?;
        disturb(rt, &mut next, symbol, &mut load);
        cells.extend_from_slice(&next)?;
        draw_pieces(&mut load);
    }
    Ok((cells, packets))
}

// The sum of bytes, modulo 2^32.
fn byte_sum(bytes: &[u8]) -> u32 {
    let mut sum = 0u32;
    for byte in bytes {
        sum = sum.wrapping_add(u32::from(*byte));
    }
    sum
}

// Runs these arguments with the settings and one file.
fn run<R: Abort + Threads + Sync>(
    rt: &R,
    alloc: Global,
    text: &str,
    file: Vec<u8>,
) -> Result<Ran, AllocError> {
    let settings = text_bytes(alloc, BASE, "")?;
    let inputs = (file, Vec::new(alloc));
    let ran = run_files(rt, alloc, text, settings, inputs, 1, ample(50_000))?;
    assert!(rt; ran.status == 0, "{text}");
    Ok(ran)
}

// The counts of the trial are the sum of the cells fed, and the output of `receive` for a file of them.
#[test]
fn trial_and_receive(rt: HostRuntime) -> Result<(), Fail> {
    let alloc = rt.alloc();
    let (cells, packets) = fed(&rt, alloc, 7)?;
    assert_eq!(rt; cells.len(), 272 * SYMBOL);
    let cell_sum = byte_sum(&cells);
    let mut file = Vec::from_slice(alloc, HEADER.as_slice())?;
    file.extend_from_slice(&cells)?;
    let received = run(&rt, alloc, "receive s a hp", file)?;
    assert_eq!(rt; received.hp.len(), 241 * 188);
    let sum = byte_sum(&received.hp);
    let expected = format!(in alloc;
        "cells {cell_sum}\nhp packets {packets} back 241 sum {sum}\n"
    )?;
    let tried = run(&rt, alloc, "trial s 7", Vec::new(alloc))?;
    assert!(rt;
        tried.report.as_slice() == expected.as_bytes(),
        "{expected}"
    );
    Ok(())
}

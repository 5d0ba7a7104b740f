// A measurer fed in pieces. The expected lines are those of an independent program.
use measure_report::Line;
use measurer::{MeasureOut, Measurer};
use mode_set::{Carriers, Mode, Mode2k, Mode8k, Rate, Settings, Shape};
use std::alloc::{AllocError, Global};
use std::process::Abort;
use std::test::Fail;
use std::thread::Threads;
use test_runs::{BASE, SYMBOL, WIDE, WIDE_SYMBOL, null_cells, wide_null_cells};
use test_tools::flat;
use word_workers::OpenGate;

// Appends the lines in order.
fn note(lines: &[Line], text: &mut Vec<u8>) -> Result<(), AllocError> {
    for line in lines {
        text.extend_from_slice(line.as_str().as_bytes())?;
    }
    Ok(())
}

// Feeds the bytes in pieces of this size, by `feed` or through a gate, and ends; appends the lines.
fn feed_all<M: Carriers, R: Abort + Threads + Sync>(
    rt: &R,
    measurer: &mut Measurer<M>,
    out: &mut MeasureOut,
    bytes: &[u8],
    size: usize,
    text: &mut Vec<u8>,
) -> Result<(), AllocError> {
    let mut begin = 0usize;
    for turn in 0..bytes.len() {
        if begin >= bytes.len() {
            break;
        }
        let end = begin + size.min(bytes.len() - begin);
        assert!(rt; !measurer.ended() && measurer.symbols() < 1_000);
        let count = if turn % 2 == 0 {
            measurer.feed(rt, &bytes[begin..end], out)
        } else {
            measurer.feed_gated(rt, &OpenGate, &bytes[begin..end], out)
        };
        assert!(rt; 0 < count && count <= end - begin);
        begin += count;
        note(out.lines(), text)?;
    }
    assert!(rt; !measurer.ended());
    measurer.finish(rt, out);
    note(out.lines(), text)
}

// A new measurer fed in this way: all its lines.
fn fed<M: Carriers, R: Abort + Threads + Sync>(
    rt: &R,
    alloc: Global,
    settings: &Settings,
    bytes: &[u8],
    size: usize,
) -> Result<Vec<u8>, AllocError> {
    assert!(rt; settings.mode == M::MODE && 0 < size);
    let mut out = MeasureOut::new(alloc)?;
    let mut text = Vec::new(alloc);
    // Constructed last: early returns would have to drop it, which is slow to prove.
    let mut measurer = Measurer::<M>::new(alloc, settings)?;
    feed_all(rt, &mut measurer, &mut out, bytes, size, &mut text)?;
    let whole = (bytes.len() / (5 * M::K as usize)) as u64;
    assert!(rt; measurer.ended() && measurer.symbols() == whole);
    Ok(text)
}

const SEVEN: &str =
    "superframe 0 symbols 7 cells 10584 muted 0 power 2841004378800 error 0 tps read 0 bad 0\nhp bits 21168 wrong 0 words 0 clean 0 corrected 0 bad 0 unphased 0 unmerged 0 repaired 0\nsymbols 7 tail 9\ntps read 0 bad 0\nhp words 0 clean 0 corrected 0 bad 0 unphased 0 unmerged 0\n";

// Pieces of any size give the same lines.
#[test]
fn pieces_of_symbols(rt: HostRuntime) -> Result<(), Fail> {
    let alloc = rt.alloc();
    let cells = null_cells(&rt, alloc, BASE, false)?;
    let end = (8 + 7 * SYMBOL + 9).min(cells.len());
    let bytes = &cells[8.min(end)..end];
    let settings = flat(Mode::M2k, Shape::Qpsk, Rate::R1of2);
    for size in [1, 4_000, SYMBOL, 100_000] {
        let text = fed::<Mode2k, _>(&rt, alloc, &settings, bytes, size)?;
        assert!(rt; text.as_slice() == SEVEN.as_bytes(), "pieces of {size}");
    }
    Ok(())
}

const FIVE: &str =
    "superframe 0 symbols 5 cells 30240 muted 0 power 8117155368000 error 0 tps read 0 bad 0\nhp bits 60480 wrong 0 words 7 clean 7 corrected 0 bad 0 unphased 0 unmerged 0 repaired 0\nsymbols 5 tail 0\ntps read 0 bad 0\nhp words 7 clean 7 corrected 0 bad 0 unphased 0 unmerged 0\n";

#[test]
fn pieces_of_wide_symbols(rt: HostRuntime) -> Result<(), Fail> {
    let alloc = rt.alloc();
    let cells = wide_null_cells(&rt, alloc, WIDE)?;
    let end = (8 + 5 * WIDE_SYMBOL).min(cells.len());
    let bytes = &cells[8.min(end)..end];
    let settings = flat(Mode::M8k, Shape::Qpsk, Rate::R1of2);
    for size in [9_999, WIDE_SYMBOL] {
        let text = fed::<Mode8k, _>(&rt, alloc, &settings, bytes, size)?;
        assert!(rt; text.as_slice() == FIVE.as_bytes(), "pieces of {size}");
    }
    Ok(())
}

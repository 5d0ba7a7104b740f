// The cells for receiving runs.
use crate::files::{File, text_bytes};
use crate::runs::{ample, run_files};
use std::alloc::{AllocError, Global};
use std::thread::Threads;
use test_tools::next_number;

/// The bytes of a symbol of the 2K mode.
pub const SYMBOL: usize = 8_525;

/// The bytes of a symbol of the 8K mode.
pub const WIDE_SYMBOL: usize = 34_085;

/// The bytes of a cell file of a super-frame of the 2K mode.
pub const SUPER_FRAME: u32 = 2_318_808;

/// The bytes of a cell file of a super-frame of the 8K mode.
pub const WIDE_SUPER_FRAME: u32 = 9_271_128;

// The cells of the super-frame of null packets with these settings, after their header, if these bytes suffice for it.
fn null_cells_in<R: Threads + Sync>(
    rt: &R,
    alloc: Global,
    settings: &str,
    two: bool,
    room: u32,
) -> Result<Vec<u8>, AllocError> {
    let words = if two {
        "modulate s a b cells"
    } else {
        "modulate s a cells"
    };
    let inputs = (Vec::new(alloc), Vec::new(alloc));
    let settings = text_bytes(alloc, settings, "")?;
    Ok(run_files(rt, alloc, words, settings, inputs, 1, ample(room))?.cells)
}

/// The cells of the super-frame of null packets with these settings, after their header, in the 2K mode. The only error
/// is lack of memory.
pub fn null_cells<R: Threads + Sync>(
    rt: &R,
    alloc: Global,
    settings: &str,
    two: bool,
) -> Result<Vec<u8>, AllocError> {
    null_cells_in(rt, alloc, settings, two, SUPER_FRAME)
}

/// The same of one stream in the 8K mode.
pub fn wide_null_cells<R: Threads + Sync>(
    rt: &R,
    alloc: Global,
    settings: &str,
) -> Result<Vec<u8>, AllocError> {
    null_cells_in(rt, alloc, settings, false, WIDE_SUPER_FRAME)
}

/// The cells of a transmission of this number of packets with counting payloads, of one stream or of two, with these
/// settings and the lines after them; none if `modulate` refuses them. The only error is lack of memory.
pub fn sent<R: Threads + Sync>(
    rt: &R,
    alloc: Global,
    settings: (&str, &str),
    packets: (u32, Option<u32>),
    super_frames: u32,
) -> Result<Vec<u8>, AllocError> {
    let hp = File::Counted(packets.0, 0).bytes(alloc)?;
    let (words, lp) = match packets.1 {
        Some(count) => (
            "modulate s a b cells",
            File::Counted(count, 0).bytes(alloc)?,
        ),
        None => ("modulate s a cells", Vec::new(alloc)),
    };
    let settings = text_bytes(alloc, settings.0, settings.1)?;
    let room = ample(super_frames.min(9) * SUPER_FRAME);
    let ran = run_files(rt, alloc, words, settings, (hp, lp), 1000, room)?;
    if ran.status == 0 {
        Ok(ran.cells)
    } else {
        Ok(Vec::new(alloc))
    }
}

/// The header of a file of cells, then its symbols from this one on, and the first ones of a super-frame that follows.
/// `symbol` is the number of bytes of a symbol. The only error is lack of memory.
pub fn heard(
    alloc: Global,
    cells: &[u8],
    symbol: usize,
    first: usize,
    following: usize,
) -> Result<Vec<u8>, AllocError> {
    let mut bytes = Vec::new(alloc);
    let symbol = symbol.min(WIDE_SYMBOL);
    let begin = (8 + first.min(600) * symbol).min(cells.len());
    let end = (8 + following.min(600) * symbol).min(cells.len());
    bytes.extend_from_slice(&cells[..8.min(cells.len())])?;
    bytes.extend_from_slice(&cells[begin..])?;
    bytes.extend_from_slice(&cells[8.min(end)..end])?;
    Ok(bytes)
}

// A part of a cell moved by a random number of at most this size, and limited to 16 bits.
fn moved(part: [u8; 2], most: u32, state: &mut u32) -> [u8; 2] {
    let drawn = (next_number(state) >> 16) % (2 * most.min(32_767) + 1);
    let number = i32::from(i16::from_be_bytes(part)) + drawn as i32 - most.min(32_767) as i32;
    (number.clamp(-32_768, 32_767) as i16).to_be_bytes()
}

/// A cell file with noise on all cells, including pilots and TPS: both parts of each are moved by at most this much,
/// random from seed 1. The only error is lack of memory.
pub fn noisy(alloc: Global, file: &[u8], most: u32) -> Result<Vec<u8>, AllocError> {
    let mut bytes = Vec::from_slice(alloc, &file[..8.min(file.len())])?;
    let mut state = 1;
    for cell in file[bytes.len()..].chunks_exact(5) {
        bytes.extend_from_slice(moved([cell[0], cell[1]], most, &mut state).as_slice())?;
        bytes.extend_from_slice(moved([cell[2], cell[3]], most, &mut state).as_slice())?;
        bytes.push(cell[4])?;
    }
    Ok(bytes)
}

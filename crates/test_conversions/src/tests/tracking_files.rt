// Files of cells for tracking.
use mode_set::Mode;
use pilots::is_pilot;
use rand_core::utils::NextWord;
use rand_pcg::Lcg64Xsh32;
use sha2::{Digest, Sha256};
use std::alloc::{AllocError, Global};
use test_runs::SYMBOL;

pub(crate) const TRACK: &str = "track s a cells";

/// The header of a cell file of the 2K mode.
pub(crate) const HEADER: [u8; 8] = [0x44, 0x56, 0x54, 0x43, 2, 0, 0, 0];

/// The header of a cell file of the 8K mode.
pub(crate) const WIDE_HEADER: [u8; 8] = [0x44, 0x56, 0x54, 0x43, 2, 1, 0, 0];

const DIGITS: &str = "0123456789abcdef";

/// The generator's stream for random cells.
const STREAM: u64 = 105;

/// A number of random bytes after a header, as the independent program generates them. The only error is lack of
/// memory.
pub(crate) fn random_cells(
    alloc: Global,
    header: &[u8],
    count: u32,
    seed: u32,
) -> Result<Vec<u8>, AllocError> {
    let mut words = Lcg64Xsh32::new(u64::from(seed), STREAM);
    let mut bytes = Vec::from_slice(alloc, header)?;
    for _ in 0..count {
        bytes.push((words.next_word() % 256) as u8)?;
    }
    Ok(bytes)
}

/// The sum of bytes.
pub(crate) fn sum_of(bytes: &[u8]) -> u32 {
    let mut sum = 0u32;
    for byte in bytes {
        sum = sum.wrapping_add(u32::from(*byte));
    }
    sum
}

// A hexadecimal digit.
fn digit_of(number: u8) -> u8 {
    DIGITS.as_bytes()[usize::from(number % 16)]
}

/// Whether the bytes have this SHA-256, in hexadecimal digits. The only error is lack of memory.
pub(crate) fn has_digest(alloc: Global, bytes: &[u8], digits: &str) -> Result<bool, AllocError> {
    let digest = Sha256::digest(bytes);
    let mut text = Vec::new(alloc);
    for byte in digest.iter() {
        text.push(digit_of(*byte / 16))?;
        text.push(digit_of(*byte % 16))?;
    }
    Ok(text.as_slice() == digits.as_bytes())
}

// A part of a cell, from its two bytes.
fn part_of(high: u8, low: u8) -> i32 {
    i32::from(i16::from_be_bytes([high, low]))
}

// A part of a cell, limited to 16 bits, as its two bytes.
fn part_bytes(part: i32) -> [u8; 2] {
    (part.clamp(-32_768, 32_767) as i16).to_be_bytes()
}

/// The cells of a file, each (x, y) as (-y, x). The only error is lack of memory.
pub(crate) fn turned(alloc: Global, file: &[u8]) -> Result<Vec<u8>, AllocError> {
    let mut bytes = Vec::from_slice(alloc, HEADER.as_slice())?;
    for cell in file[file.len().min(8)..].chunks_exact(5) {
        let y = part_of(cell[2], cell[3]).clamp(-32_768, 32_767);
        bytes.extend_from_slice(part_bytes(-y).as_slice())?;
        bytes.push(cell[0])?;
        bytes.push(cell[1])?;
        bytes.push(cell[4])?;
    }
    Ok(bytes)
}

// A cell with its parts exchanged.
fn exchanged(cell: &[u8; 5]) -> [u8; 5] {
    [cell[2], cell[3], cell[0], cell[1], cell[4]]
}

// A cell plus a quarter of another, rounded down.
fn added(cell: &[u8; 5], other: &[u8; 5]) -> [u8; 5] {
    let re = part_of(cell[0], cell[1]).clamp(-32_768, 32_767);
    let im = part_of(cell[2], cell[3]).clamp(-32_768, 32_767);
    let more_re = part_of(other[0], other[1])
        .clamp(-32_768, 32_767)
        .div_euclid(4);
    let more_im = part_of(other[2], other[3])
        .clamp(-32_768, 32_767)
        .div_euclid(4);
    let re = part_bytes(re.saturating_add(more_re));
    let im = part_bytes(im.saturating_add(more_im));
    [re[0], re[1], im[0], im[1], cell[4]]
}

// The cell at this index of a file, or zeros.
fn cell_at(file: &[u8], place: usize) -> [u8; 5] {
    if file.len() < 5 || place > file.len() - 5 {
        return [0; 5];
    }
    [
        file[place],
        file[place + 1],
        file[place + 2],
        file[place + 3],
        file[place + 4],
    ]
}

/// The first 48 symbols of these cells, with the parts of the cells of even carriers exchanged in symbols 8, 12 and 16,
/// and a quarter of random cells added from symbol 20 on. The only error is lack of memory.
pub(crate) fn disturbed(alloc: Global, file: &[u8]) -> Result<Vec<u8>, AllocError> {
    let drawn = random_cells(alloc, &HEADER, 48 * SYMBOL as u32, 48)?;
    let mut bytes = Vec::from_slice(alloc, HEADER.as_slice())?;
    for symbol in 0..48usize {
        for carrier in 0..1705usize {
            let place = 8 + symbol * SYMBOL + carrier * 5;
            let cell = cell_at(file, place);
            let hit = symbol == 8 || symbol == 12 || symbol == 16;
            let cell = if hit && carrier % 2 == 0 {
                exchanged(&cell)
            } else if symbol >= 20 {
                added(&cell, &cell_at(&drawn, place))
            } else {
                cell
            };
            bytes.extend_from_slice(cell.as_slice())?;
        }
    }
    Ok(bytes)
}

// Whether this carrier of the 2K mode is a continual pilot: a pilot in four consecutive symbols.
fn is_continual(carrier: u32) -> bool {
    let carrier = carrier.min(1704);
    is_pilot(Mode::M2k, 0, carrier)
        && is_pilot(Mode::M2k, 1, carrier)
        && is_pilot(Mode::M2k, 2, carrier)
        && is_pilot(Mode::M2k, 3, carrier)
}

/// Random cells of 24 symbols with weights of at most 15, whose continual pilots are those of symbol 0 in all symbols.
/// The only error is lack of memory.
pub(crate) fn still(alloc: Global) -> Result<Vec<u8>, AllocError> {
    let drawn = random_cells(alloc, &HEADER, 24 * SYMBOL as u32, 24)?;
    let mut bytes = Vec::from_slice(alloc, HEADER.as_slice())?;
    for symbol in 0..24usize {
        for carrier in 0..1705u32 {
            let first = 8 + carrier as usize * 5;
            let own = cell_at(&drawn, first + symbol * SYMBOL);
            let shown = if is_continual(carrier) {
                cell_at(&drawn, first)
            } else {
                own
            };
            bytes.extend_from_slice(&shown[..4])?;
            bytes.push(own[4].min(15))?;
        }
    }
    Ok(bytes)
}

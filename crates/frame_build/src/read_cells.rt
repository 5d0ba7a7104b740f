// The cells of a symbol and their weights from its bytes, six cells at a time.
ghost use Rattle.std.specs.Prelude.{◌≡◌, ℕ, ◌+◌, ◌*◌, ◌<◌, ◌≤◌, length, slice_index};
ghost use Rattle.std.specs.Int.{cast_signed, w16};
ghost use Rattle.frame_build.specs.Reading.{AreCellsTo, AreParts, AreReadTo, AreWeightsTo};
ghost use Rattle.frame_build.specs.Symbol.{cells_from, weight_from, weights_from};

use crate::plain::{read_cell, read_weight};
use qam_map::Cell;
use std::simd::{u8x16, u16x8};

// Sixteen bytes in a row.
fn sixteen(bytes: &[u8], first: usize) -> u8x16
    requires { first + 16 ≤ length bytes.now }
    ensures long { length result ≡ 16 }
    ensures is { (j : ℕ) → j < 16 → slice_index result j ≡ slice_index bytes.now (first + j) }
{
    u8x16::from_slice(&bytes[first..first + 16])
}

// The parts of three cells, by their fifteen bytes.
fn parts_in(bytes: u8x16) -> [u16; 8]
    ensures real { (i : ℕ) → i < 3 → slice_index result (2 * i) ≡ 256 * slice_index bytes (5 * i)
        + slice_index bytes (5 * i + 1) }
    ensures imaginary { (i : ℕ) → i < 3 → slice_index result (2 * i + 1) ≡ 256 * slice_index bytes (5 * i + 2)
        + slice_index bytes (5 * i + 3) }
{
    // the low byte of each comes first
    u16x8::from_le_bytes(bytes.swizzle([
        1, 0, 3, 2, 6, 5, 8, 7, 11, 10, 13, 12, 0, 0, 0, 0,
    ])).to_array()
}

// The parts of three cells from number `k` on.
fn parts_at(bytes: &[u8], k: usize) -> [u16; 8]
    requires { 5 * k + 16 ≤ length bytes.now }
    ensures { AreParts bytes.now k result }
{
    parts_in(sixteen(bytes, 5 * k))
}

// The weights of six cells from number `k` on.
fn weights_at(bytes: &[u8], k: usize) -> [u8; 6]
    requires { 5 * k + 30 ≤ length bytes.now }
    ensures { (i : ℕ) → i < 6 → slice_index result i ≡ weight_from bytes.now (k + i) }
{
    [
        read_weight(bytes, k),
        read_weight(bytes, k + 1),
        read_weight(bytes, k + 2),
        read_weight(bytes, k + 3),
        read_weight(bytes, k + 4),
        read_weight(bytes, k + 5),
    ]
}

// The cell of these parts.
fn cell_of(re: u16, im: u16) -> Cell
    ensures re { result.re ≡ cast_signed w16 re }
    ensures im { result.im ≡ cast_signed w16 im }
{
    Cell {
        re: re.cast_signed(),
        im: im.cast_signed(),
    }
}

// Puts three cells of these parts, from number `k` on.
fn put_cells(bytes: &[u8], parts: [u16; 8], k: usize, cells: &mut [Cell])
    requires parts { AreParts bytes.now k parts }
    requires room { k + 3 ≤ length cells.old }
    ensures long { length cells.new ≡ length cells.old }
    ensures cells { AreCellsTo bytes.now cells.old k → AreCellsTo bytes.now cells.new (k + 3) }
{
    cells[k] = cell_of(parts[0], parts[1]);
    cells[k + 1] = cell_of(parts[2], parts[3]);
    cells[k + 2] = cell_of(parts[4], parts[5]);
}

// Puts six weights, from number `k` on.
fn put_weights(bytes: &[u8], six: [u8; 6], k: usize, weights: &mut [u8])
    requires six { (i : ℕ) → i < 6 → slice_index six i ≡ weight_from bytes.now (k + i) }
    requires room { k + 6 ≤ length weights.old }
    ensures long { length weights.new ≡ length weights.old }
    ensures weights { AreWeightsTo bytes.now weights.old k → AreWeightsTo bytes.now weights.new (k + 6) }
{
    weights[k] = six[0];
    weights[k + 1] = six[1];
    weights[k + 2] = six[2];
    weights[k + 3] = six[3];
    weights[k + 4] = six[4];
    weights[k + 5] = six[5];
}

// Reads six cells and their weights, from number `k` on. One byte more is read than they have.
fn read_six(bytes: &[u8], k: usize, cells: &mut [Cell], weights: &mut [u8])
    requires bytes { 5 * k + 31 ≤ length bytes.now }
    requires room { k + 6 ≤ length cells.old }
    requires weights { length weights.old ≡ length cells.old }
    ensures long { length cells.new ≡ length cells.old }
    ensures weights_long { length weights.new ≡ length cells.old }
    ensures read { AreReadTo bytes.now cells.old weights.old k → AreReadTo bytes.now cells.new weights.new (k + 6) }
{
    let first = parts_at(bytes, k);
    let last = parts_at(bytes, k + 3);
    let six = weights_at(bytes, k);
    put_cells(bytes, first, k, cells);
    put_cells(bytes, last, k + 3, cells);
    put_weights(bytes, six, k, weights);
}

// Reads cells and their weights by sixes, and answers how many were read.
fn read_sixes(bytes: &[u8], cells: &mut [Cell], weights: &mut [u8]) -> usize
    requires bytes { length bytes.now ≡ 5 * length cells.old }
    requires weights { length weights.old ≡ length cells.old }
    ensures long { length cells.new ≡ length cells.old }
    ensures weights_long { length weights.new ≡ length cells.old }
    ensures most { result ≤ length cells.old }
    ensures read { AreReadTo bytes.now cells.new weights.new result }
{
    let mut k = 0;
    while k + 7 <= cells.len() {
        read_six(bytes, k, cells, weights);
        k += 6;
    }
    k
}

// The cells of all carriers and their weights, in one pass.
pub(crate) fn read_symbol(bytes: &[u8], cells: &mut [Cell], weights: &mut [u8])
    requires bytes { length bytes.now ≡ 5 * length cells.old }
    requires weights { length weights.old ≡ length cells.old }
    ensures cells { cells.new ≡ cells_from bytes.now (length cells.old) }
    ensures weights { weights.new ≡ weights_from bytes.now (length cells.old) }
{
    for k in read_sixes(bytes, cells, weights)..cells.len() {
        cells[k] = read_cell(bytes, k);
        weights[k] = read_weight(bytes, k);
    }
}

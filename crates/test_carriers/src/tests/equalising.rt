// Symbols against outside cases: a quarter turn, nothing received, and random cells against another program's results.
ghost use Rattle.std.specs.Prelude.{◌≡◌, ◌+◌, ◌*◌, ◌<◌, length};
ghost use Rattle.mode_set.specs.StreamTable.{carriers};

use cell_equal::{equalise, equalise_into, plain};
use mode_set::Mode;
use pilots::{CarrierKind, kind, reference};
use qam_map::Cell;
use std::alloc::Global;
use std::process::Abort;
use std::rt::HostRuntime;
use test_tools::next_number;

fn carriers_of(mode: Mode) -> u32
    ensures { result ≡ carriers mode }
{
    match mode {
        Mode::M2k => 1705,
        Mode::M8k => 6817,
    }
}

// The symbol's corrected bytes, which are also those of the definition's program.
fn equalised(
    rt: &impl Abort,
    alloc: Global,
    mode: Mode,
    l: u8,
    cells: &[Cell],
    weights: &[u8],
) -> Vec<u8> {
    let count = carriers_of(mode) as usize;
    assert!(rt; l < 68 && cells.len() == count && weights.len() == count);
    let mut bytes = Vec::with_capacity(alloc, 5 * count).expect(rt, "memory");
    equalise(mode, l, cells, weights, &mut bytes);
    let mut plainly = Vec::with_capacity(alloc, 5 * count).expect(rt, "memory");
    plain::equalise(mode, l, cells, weights, &mut plainly);
    assert!(rt; bytes == plainly, "symbol {l}");
    let mut written = vec![in alloc; 1u8; 5 * count].expect(rt, "memory");
    equalise_into(mode, l, cells, weights, &mut written);
    assert!(rt; written == plainly, "symbol {l}");
    bytes
}

fn numbered(draw: &mut u32) -> u32 {
    next_number(draw) >> 8
}

// One of four values of an axis.
fn level(draw: &mut u32) -> i16 {
    match numbered(draw) % 4 {
        0 => 5181,
        1 => -5181,
        2 => 15543,
        _ => -15543,
    }
}

fn sent(mode: Mode, l: u8, k: u32, draw: &mut u32) -> Cell
    requires symbol { l < 68 }
    requires carrier { k < carriers mode }
{
    let pilot = if reference(k) { -21845 } else { 21845 };
    match kind(mode, l, k) {
        CarrierKind::Continual | CarrierKind::Scattered => Cell { re: pilot, im: 0 },
        CarrierKind::Tps => Cell { re: -16384, im: 0 },
        CarrierKind::Payload(_) => Cell {
            re: level(draw),
            im: level(draw),
        },
    }
}

// The cells of a sent symbol in the 2K mode.
fn sent_cells(rt: &impl Abort, alloc: Global, l: u8) -> Vec<Cell>
    requires { l < 68 }
{
    let mut draw = 5;
    let mut cells = vec![in alloc; Cell { re: 0, im: 0 }; 1705].expect(rt, "memory");
    for k in 0..1705u32 {
        cells[k as usize] = sent(Mode::M2k, l, k, &mut draw);
    }
    cells
}

fn turned_by_a_quarter(rt: &impl Abort, alloc: Global, cells: &[Cell]) -> Vec<Cell> {
    let mut turned = Vec::new(alloc);
    for cell in cells {
        let came = Cell {
            re: cell.im.wrapping_neg(),
            im: cell.re,
        };
        turned.push(came).expect(rt, "memory");
    }
    turned
}

// The bytes of cells at full weight.
fn bytes_of(rt: &impl Abort, alloc: Global, cells: &[Cell]) -> Vec<u8> {
    let mut bytes = Vec::new(alloc);
    for cell in cells {
        let [a, b] = cell.re.to_be_bytes();
        let [c, d] = cell.im.to_be_bytes();
        bytes
            .extend_from_slice(&[a, b, c, d, 15])
            .expect(rt, "memory");
    }
    bytes
}

// A quarter turn is removed exactly, and every weight is 15.
#[test]
fn a_quarter_turn(rt: HostRuntime) {
    let alloc = rt.alloc();
    for l in [0u8, 1, 66, 67] {
        assert!(&rt; l < 68);
        let cells = sent_cells(&rt, alloc, l);
        let came = turned_by_a_quarter(&rt, alloc, &cells);
        let bytes = equalised(&rt, alloc, Mode::M2k, l, &came, &[15; 1705]);
        assert!(&rt; bytes == bytes_of(&rt, alloc, &cells), "symbol {l}");
    }
}

// Zero cells get weight 0.
#[test]
fn zero_cells(rt: HostRuntime) {
    let cells = [Cell { re: 0, im: 0 }; 1705];
    let bytes = equalised(&rt, rt.alloc(), Mode::M2k, 3, &cells, &[15; 1705]);
    assert!(&rt; bytes.as_slice() == [0u8; 8525].as_slice());
}

// The bytes as one number, modulo 2^32.
fn sum_of(bytes: &[u8]) -> u32 {
    bytes.iter().fold(
        0u32,
        |sum, byte| sum.wrapping_mul(16777619) ^ (*byte as u32),
    )
}

// The effect of a channel on a symbol.
#[derive(Clone, Copy)]
enum Channel {
    // Any values, or values near 0, instead of the cells.
    Any,
    Weak,
    // A gain of (a + b i) / 16384, within 1 on each axis.
    Gain(i32, i32),
    // A gain that falls and turns from carrier to carrier.
    Slope,
}

fn is_sent(channel: Channel) -> bool {
    !matches!(channel, Channel::Any | Channel::Weak)
}

fn is_one_gain(channel: Channel) -> bool {
    matches!(channel, Channel::Gain(_, _))
}

fn value(draw: &mut u32, small: bool) -> i16 {
    let value = ((numbered(draw) % 65536) as u16).cast_signed();
    if small { value % 4 } else { value }
}

fn any_cell(draw: &mut u32, small: bool) -> Cell {
    Cell {
        re: value(draw, small),
        im: value(draw, small),
    }
}

fn part(times_16384: i32) -> i16 {
    (times_16384 / 16384).clamp(-32768, 32767) as i16
}

fn through(cell: Cell, a: i32, b: i32) -> Cell {
    let (x, y) = (i32::from(cell.re), i32::from(cell.im));
    Cell {
        re: part(a.wrapping_mul(x).wrapping_sub(b.wrapping_mul(y))),
        im: part(a.wrapping_mul(y).wrapping_add(b.wrapping_mul(x))),
    }
}

fn came(channel: Channel, cell: Cell, k: u32, draw: &mut u32) -> Cell {
    match channel {
        Channel::Any => any_cell(draw, false),
        Channel::Weak => any_cell(draw, true),
        Channel::Gain(a, b) => through(cell, a, b),
        Channel::Slope => {
            let place = (k % 8192) as i32;
            through(cell, 16384 - 2 * place, place)
        }
    }
}

// Whether each cell of weight 1 or more is within 64 of the one sent, and has a weight.
fn comes_back(sent_cells: &[Cell], weights: &[u8], bytes: &[u8]) -> bool
    requires weights { length weights.now ≡ length sent_cells.now }
    requires bytes { length bytes.now ≡ 5 * length sent_cells.now }
{
    for k in 0..sent_cells.len() {
        let re = i16::from_be_bytes([bytes[5 * k], bytes[5 * k + 1]]);
        let im = i16::from_be_bytes([bytes[5 * k + 2], bytes[5 * k + 3]]);
        let near = re.abs_diff(sent_cells[k].re) <= 64 && im.abs_diff(sent_cells[k].im) <= 64;
        if !near || (bytes[5 * k + 4] == 0) != (weights[k] == 0) {
            return false;
        }
    }
    true
}

// The corrected bytes of a random symbol after a channel as one number, and whether it is restored if the channel is
// flat.
fn drawn(rt: &impl Abort, alloc: Global, mode: Mode, l: u8, channel: Channel) -> (u32, bool)
    requires { l < 68 }
{
    let mut draw = 7 + l as u32;
    let count = carriers_of(mode) as usize;
    let mut sent_cells = vec![in alloc; Cell { re: 0, im: 0 }; count].expect(rt, "memory");
    let mut cells = vec![in alloc; Cell { re: 0, im: 0 }; count].expect(rt, "memory");
    let mut weights = vec![in alloc; 0u8; count].expect(rt, "memory");
    for k in 0..count {
        if is_sent(channel) {
            sent_cells[k] = sent(mode, l, k as u32, &mut draw);
        }
        cells[k] = came(channel, sent_cells[k], k as u32, &mut draw);
        weights[k] = (numbered(&mut draw) % 16) as u8;
    }
    let bytes = equalised(rt, alloc, mode, l, &cells, &weights);
    let back = bytes.len() == 5 * count && comes_back(&sent_cells, &weights, &bytes);
    (sum_of(&bytes), back || !is_one_gain(channel))
}

// Symbols and their channels, and the sums of an independent program: any values, a fifth of them clipped at the ends
// of the range; pilots that are often zero; flat channels of half and of full nominal amplitude; and one that differs
// by carrier. Every phase of the scattered pilots occurs.
const DRAWN: [(Mode, u8, Channel, u32); 13] = [
    (Mode::M2k, 0, Channel::Any, 1666746854),
    (Mode::M2k, 67, Channel::Weak, 2945897832),
    (Mode::M2k, 30, Channel::Any, 1339069200),
    (Mode::M8k, 5, Channel::Any, 670544072),
    (Mode::M8k, 2, Channel::Weak, 2571237164),
    (Mode::M8k, 3, Channel::Any, 1509796531),
    (Mode::M2k, 0, Channel::Gain(8192, 0), 1836251031),
    (Mode::M2k, 1, Channel::Gain(-5793, 5793), 3199468633),
    (Mode::M8k, 6, Channel::Gain(0, -8192), 3245562678),
    (Mode::M8k, 67, Channel::Gain(11585, -11585), 2645961161),
    (Mode::M2k, 3, Channel::Gain(-16384, 0), 773155435),
    (Mode::M2k, 2, Channel::Slope, 2087090885),
    (Mode::M8k, 4, Channel::Slope, 352988856),
];

// The corrected bytes are those of the independent program, and the cells after a flat channel are restored.
#[test]
fn drawn_symbols(rt: HostRuntime) {
    for (mode, l, channel, sum) in DRAWN {
        assert!(&rt; l < 68);
        let found = drawn(&rt, rt.alloc(), mode, l, channel);
        assert!(&rt; found == (sum, true), "symbol {l}");
    }
}

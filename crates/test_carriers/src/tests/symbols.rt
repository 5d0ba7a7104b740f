// The cells of the first symbols of a transmission.
ghost use Rattle.std.specs.Prelude.{ℕ, ◌<◌, ◌^◌, get_or};
ghost use Rattle.mode_set.specs.StreamTable.{label_bits};
ghost use Rattle.mode_set.specs.declared.modes.Shape.{Shape as AnyShape};

use frame_build::{SymbolIn, SymbolOut, header};
use mode_set::{Entry, Mode, Mode2k, Rate, Shape};
use qam_map::Cell;
use std::alloc::{AllocError, Global};
use std::process::Abort;
use std::rt::HostRuntime;
use std::test::Fail;
use test_tools::flat;

// Every label has y0 = 1, and each other bit of it is 0.
fn labels() -> [u8; 1512]
    ensures { (shape : AnyShape) (q : ℕ) → q < 1512 → get_or result q 0 < 2 ^ label_bits shape }
{
    [1; 1512]
}

// The bytes of four symbols of a builder, given the parameters of each and those that it announces.
fn four_symbols(alloc: Global, symbols: &[(Entry, Entry); 4]) -> Result<Vec<u8>, AllocError> {
    let labels = labels();
    let mut bytes = Vec::with_capacity(alloc, 34100)?;
    let mut out = SymbolOut::<Mode2k>::new(&flat(Mode::M2k, Shape::Qpsk, Rate::R1of2));
    for k in 0..4usize {
        let (now, next) = &symbols[k];
        out.write(now, next, &labels, &mut bytes);
    }
    Ok(bytes)
}

// Each of these cells, given by symbol and carrier, is in the bytes of the symbols.
fn stand(rt: &impl Abort, bytes: &[u8], cells: &[(u8, u16, [u8; 5])]) {
    for (symbol, carrier, cell) in cells {
        let from = 5 * (1705 * *symbol as usize + *carrier as usize);
        assert!(rt; from < bytes.len());
        assert!(rt;
            bytes[from..].starts_with(cell),
            "carrier {carrier} of symbol {symbol}"
        );
    }
}

// Carriers 0 and 1, 12 and 34 of symbol 0, and carrier 34 of symbol 3, as another modulator sends them, each cell with
// weight 15.
#[test]
fn first_cells(rt: HostRuntime) -> Result<(), Fail> {
    let one = flat(Mode::M2k, Shape::Qpsk, Rate::R1of2).top();
    let bytes = four_symbols(rt.alloc(), &[(one, one); 4])?;
    let cells = [
        (0, 0, [0xAA, 0xAB, 0, 0, 15]),
        (0, 1, [0xD2, 0xBF, 0x2D, 0x41, 15]),
        (0, 12, [0x55, 0x55, 0, 0, 15]),
        (0, 34, [0x40, 0, 0, 0, 15]),
        (3, 34, [0xC0, 0, 0, 0, 15]),
    ];
    stand(&rt, &bytes, &cells);
    Ok(())
}

// Label 1 on carrier 1 from one builder, while the constellation changes and changes back: the level is that of the
// symbol's own parameters, whatever the next super-frame has.
#[test]
fn cells_of_changing_parameters(rt: HostRuntime) -> Result<(), Fail> {
    let one = flat(Mode::M2k, Shape::Qpsk, Rate::R1of2).top();
    let two = flat(Mode::M2k, Shape::Qam16, Rate::R1of2).top();
    let symbols = [(one, two), (two, one), (two, two), (one, one)];
    let bytes = four_symbols(rt.alloc(), &symbols)?;
    let cells = [
        (0, 1, [0xD2, 0xBF, 0x2D, 0x41, 15]),
        (1, 1, [0xC3, 0x49, 0x3C, 0xB7, 15]),
        (2, 1, [0xC3, 0x49, 0x3C, 0xB7, 15]),
        (3, 1, [0xD2, 0xBF, 0x2D, 0x41, 15]),
    ];
    stand(&rt, &bytes, &cells);
    Ok(())
}

// Four symbols, each over the one before it, are those that another builder appends.
#[test]
fn symbols_over_a_slice(rt: HostRuntime) -> Result<(), Fail> {
    let one = flat(Mode::M2k, Shape::Qpsk, Rate::R1of2).top();
    let two = flat(Mode::M2k, Shape::Qam16, Rate::R1of2).top();
    let symbols = [(one, two), (two, one), (two, two), (one, one)];
    let bytes = four_symbols(rt.alloc(), &symbols)?;
    assert!(&rt; bytes.len() == 34100);
    let labels = labels();
    let mut out = SymbolOut::<Mode2k>::new(&flat(Mode::M2k, Shape::Qpsk, Rate::R1of2));
    let mut symbol = [0xFFu8; 8525];
    for k in 0..4usize {
        let (now, next) = &symbols[k];
        out.write_into(now, next, &labels, &mut symbol);
        assert!(&rt;
            &bytes[8525 * k..8525 * k + 8525] == symbol.as_slice(),
            "symbol {k}"
        );
    }
    Ok(())
}

// The bytes of a symbol of another modulator, with weight byte k mod 256 for carrier k, and five of the next one.
fn weighted_bytes() -> [u8; 8530] {
    let mut bytes = [0x12u8; 8530];
    for k in 0..1706usize {
        bytes[5 * k + 4] = (k % 256) as u8;
    }
    bytes
}

// A symbol in pieces of 1, 3, 1 and 8525 bytes, five of them from the next one: the second cut is between a cell and
// its weight. A byte above 15 is weight 15.
#[test]
fn a_symbol_in_pieces(rt: HostRuntime) {
    let bytes = weighted_bytes();
    let mut symbol = SymbolIn::<Mode2k>::new(rt.alloc()).expect(&rt, "memory");
    for (from, end, taken) in [(0, 1, 1), (1, 4, 3), (4, 5, 1), (5, 8530, 8520usize)] {
        let whole = symbol.whole();
        assert!(&rt; !whole);
        assert!(&rt; symbol.take(&bytes[from..end]) == taken);
    }
    let whole = symbol.whole();
    assert!(&rt; whole);
    let cell = symbol.cells()[1704];
    assert!(&rt;
        cell == Cell {
            re: 0x1212,
            im: 0x1212
        }
    );
    for (carrier, weight) in [
        (0, 0),
        (1, 1),
        (14, 14),
        (15, 15),
        (16, 15),
        (255, 15),
        (256, 0),
        (1543, 7),
        (1704, 15u8),
    ] {
        assert!(&rt; symbol.weights()[carrier] == weight);
    }
    symbol.next();
    assert!(&rt; symbol.waiting() == 0);
}

#[test]
fn headers_of_both_modes(rt: HostRuntime) {
    let headers = [header(Mode::M2k), header(Mode::M8k)];
    let expected = [
        [0x44, 0x56, 0x54, 0x43, 2, 0, 0, 0],
        [0x44, 0x56, 0x54, 0x43, 2, 1, 0, 0],
    ];
    assert_eq!(rt; headers, expected);
}

// The measurement of one super-frame. The expected reports are those of an independent program.
use super::measure_running::{first, negate, prints};
use mode_set::Mode;
use pilots::CarrierKind::Payload;
use pilots::kind;
use std::test::Fail;
use test_runs::{BASE, LAYERED, SYMBOL, WIDE, WIDE_SYMBOL, null_cells, sent, wide_null_cells};

const NULLS: &str =
    "superframe 0 symbols 272 cells 411264 muted 0 power 110393313004800 error 0 tps read 4 bad 0\nhp bits 822528 wrong 0 words 241 clean 241 corrected 0 bad 0 unphased 0 unmerged 0 repaired 0\nsymbols 272 tail 0\ntps read 4 bad 0\nhp words 241 clean 241 corrected 0 bad 0 unphased 0 unmerged 0\n";

// A transmission's own cells have no error.
#[test]
fn own_cells(rt: HostRuntime) -> Result<(), Fail> {
    let alloc = rt.alloc();
    let cells = null_cells(&rt, alloc, BASE, false)?;
    prints(&rt, alloc, (BASE, ""), &cells, NULLS)?;
    Ok(())
}

const MOVED: &str =
    "superframe 0 symbols 272 cells 411264 muted 0 power 111350849994752 error 1061469093888 tps read 4 bad 0\nhp bits 822528 wrong 0 words 241 clean 241 corrected 0 bad 0 unphased 0 unmerged 0 repaired 0\nlp bits 822528 wrong 0 words 367 clean 367 corrected 0 bad 0 unphased 0 unmerged 0 repaired 0\nsymbols 272 tail 0\ntps read 4 bad 0\nhp words 241 clean 241 corrected 0 bad 0 unphased 0 unmerged 0\nlp words 367 clean 367 corrected 0 bad 0 unphased 0 unmerged 0\n";

// Moves the number at this byte of a file by 1136.
fn move_number(cells: &mut [u8], place: usize) {
    if place < cells.len() && cells.len() - place >= 2 {
        let number = i16::from_be_bytes([cells[place], cells[place + 1]]).wrapping_add(1_136);
        let moved = number.to_be_bytes();
        cells[place] = moved[0];
        cells[place + 1] = moved[1];
    }
}

// Moves every data cell of a symbol on both axes.
fn move_data(cells: &mut [u8], symbol: usize) {
    let l = (symbol % 68) as u8;
    for k in 0..1705u32 {
        if let Payload(_) = kind(Mode::M2k, l, k) {
            let place = 8 + symbol.min(271) * SYMBOL + 5 * k as usize;
            move_number(cells, place);
            move_number(cells, place + 2);
        }
    }
}

// Two streams whose cells are moved within the tolerance: the error is that of the move.
#[test]
fn moved_cells(rt: HostRuntime) -> Result<(), Fail> {
    let alloc = rt.alloc();
    let mut cells = sent(&rt, alloc, (LAYERED, ""), (100, Some(200)), 1)?;
    for symbol in 0..272usize {
        move_data(&mut cells, symbol);
    }
    prints(&rt, alloc, (LAYERED, ""), &cells, MOVED)?;
    Ok(())
}

const SECOND: &str =
    "superframe 0 symbols 271 cells 409752 muted 0 power 109987455236400 error 0 tps read 4 bad 0\nhp bits 819504 wrong 0 words 241 clean 241 corrected 0 bad 0 unphased 4 unmerged 0 repaired 0\nsymbols 272 tail 0\ntps read 4 bad 0\nhp words 241 clean 241 corrected 0 bad 0 unphased 4 unmerged 0\n";

// Only the second of two super-frames: its first symbol is not compared.
#[test]
fn second_super_frame(rt: HostRuntime) -> Result<(), Fail> {
    let alloc = rt.alloc();
    let cells = sent(&rt, alloc, (BASE, ""), (300, None), 2)?;
    let mut second = first(alloc, &cells, 0, 0)?;
    let begin = (8 + 272 * SYMBOL).min(cells.len());
    second.extend_from_slice(&cells[begin..])?;
    prints(&rt, alloc, (BASE, "start = \"any\"\n"), &second, SECOND)?;
    Ok(())
}

const MUTED: &str =
    "superframe 0 symbols 272 cells 0 muted 411264 power 0 error 0 tps read 4 bad 0\nhp bits 0 wrong 0 words 241 clean 241 corrected 0 bad 0 unphased 241 unmerged 0 repaired 0\nsymbols 272 tail 0\ntps read 4 bad 0\nhp words 241 clean 241 corrected 0 bad 0 unphased 241 unmerged 0\n";

// Cells of weight 0 do not count.
#[test]
fn muted_cells(rt: HostRuntime) -> Result<(), Fail> {
    let alloc = rt.alloc();
    let mut cells = null_cells(&rt, alloc, BASE, false)?;
    for (place, byte) in cells.iter_mut().enumerate() {
        if 8 <= place && place.wrapping_sub(12) % 5 == 0 {
            *byte = 0;
        }
    }
    prints(&rt, alloc, (BASE, ""), &cells, MUTED)?;
    Ok(())
}

const NEGATED: &str =
    "superframe 0 symbols 20 cells 30240 muted 0 power 8117155368000 error 1073697800 tps read 0 bad 0\nhp bits 60480 wrong 2 words 7 clean 7 corrected 0 bad 0 unphased 0 unmerged 0 repaired 0\nsymbols 20 tail 0\ntps read 0 bad 0\nhp words 7 clean 7 corrected 0 bad 0 unphased 0 unmerged 0\n";

// One cell on the other side is compared with the cell sent, and not with the nearest point.
#[test]
fn negated_cell(rt: HostRuntime) -> Result<(), Fail> {
    let alloc = rt.alloc();
    let whole = null_cells(&rt, alloc, BASE, false)?;
    let mut cells = first(alloc, &whole, 20, 0)?;
    let place = 8 + 5 * SYMBOL + 5;
    negate(&mut cells, place);
    negate(&mut cells, place + 2);
    prints(&rt, alloc, (BASE, ""), &cells, NEGATED)?;
    Ok(())
}

const FADED: &str =
    "superframe 0 symbols 272 cells 411264 muted 0 power 110393313004800 error 208297373200 tps read 4 bad 0\nhp bits 822528 wrong 388 words 241 clean 228 corrected 1 bad 12 unphased 0 unmerged 0 repaired 26\nsymbols 272 tail 0\ntps read 4 bad 0\nhp words 241 clean 228 corrected 1 bad 12 unphased 0 unmerged 0\n";

// Half a symbol on the other side: words are bad, and one is repaired.
#[test]
fn negated_half_symbol(rt: HostRuntime) -> Result<(), Fail> {
    let alloc = rt.alloc();
    let mut cells = null_cells(&rt, alloc, BASE, false)?;
    for carrier in 0..852usize {
        negate(&mut cells, 8 + 100 * SYMBOL + 5 * carrier);
    }
    prints(&rt, alloc, (BASE, ""), &cells, FADED)?;
    Ok(())
}

const TWENTY: &str =
    "superframe 0 symbols 20 cells 120960 muted 0 power 32468621472000 error 0 tps read 0 bad 0\nhp bits 241920 wrong 0 words 63 clean 63 corrected 0 bad 0 unphased 0 unmerged 0 repaired 0\nsymbols 20 tail 9\ntps read 0 bad 0\nhp words 63 clean 63 corrected 0 bad 0 unphased 0 unmerged 0\n";

// The 8K mode.
#[test]
fn wide_symbols(rt: HostRuntime) -> Result<(), Fail> {
    let alloc = rt.alloc();
    let mut cells = wide_null_cells(&rt, alloc, WIDE)?;
    cells.truncate(8 + 20 * WIDE_SYMBOL + 9);
    prints(&rt, alloc, (WIDE, ""), &cells, TWENTY)?;
    Ok(())
}

const NONE: &str =
    "symbols 0 tail 0\ntps read 0 bad 0\nhp words 0 clean 0 corrected 0 bad 0 unphased 0 unmerged 0\n";

const ONE: &str =
    "superframe 0 symbols 1 cells 1512 muted 0 power 405857768400 error 0 tps read 0 bad 0\nhp bits 3024 wrong 0 words 0 clean 0 corrected 0 bad 0 unphased 0 unmerged 0 repaired 0\nsymbols 1 tail 7\ntps read 0 bad 0\nhp words 0 clean 0 corrected 0 bad 0 unphased 0 unmerged 0\n";

const ONE_OF_ANY: &str =
    "superframe 0 symbols 0 cells 0 muted 0 power 0 error 0 tps read 0 bad 0\nhp bits 0 wrong 0 words 0 clean 0 corrected 0 bad 0 unphased 0 unmerged 0 repaired 0\nsymbols 1 tail 7\ntps read 0 bad 0\nhp words 0 clean 0 corrected 0 bad 0 unphased 0 unmerged 0\n";

const PUNCTURED: &str =
    "mode = \"2k\"\nconstellation = \"qpsk\"\nrate_hp = \"3/4\"\nguard = \"1/32\"\n";

const ONE_PUNCTURED: &str =
    "superframe 0 symbols 1 cells 1512 muted 0 power 405857768400 error 0 tps read 0 bad 0\nhp bits 3024 wrong 0 words 0 clean 0 corrected 0 bad 0 unphased 0 unmerged 0 repaired 0\nsymbols 1 tail 0\ntps read 0 bad 0\nhp words 0 clean 0 corrected 0 bad 0 unphased 0 unmerged 0\n";

// A header alone, a symbol and a few bytes, and a symbol of a punctured stream.
#[test]
fn few_symbols(rt: HostRuntime) -> Result<(), Fail> {
    let alloc = rt.alloc();
    let cells = null_cells(&rt, alloc, BASE, false)?;
    prints(&rt, alloc, (BASE, ""), &first(alloc, &cells, 0, 0)?, NONE)?;
    prints(&rt, alloc, (BASE, ""), &first(alloc, &cells, 1, 7)?, ONE)?;
    let any = (BASE, "start = \"any\"\n");
    prints(&rt, alloc, any, &first(alloc, &cells, 1, 7)?, ONE_OF_ANY)?;
    let cells = null_cells(&rt, alloc, PUNCTURED, false)?;
    let one = first(alloc, &cells, 1, 0)?;
    prints(&rt, alloc, (PUNCTURED, ""), &one, ONE_PUNCTURED)?;
    Ok(())
}

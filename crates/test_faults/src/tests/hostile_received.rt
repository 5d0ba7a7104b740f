// Cells that no modulator sends, with random weights, through the command `receive`. The expected lengths and sums are
// those of an independent program.
use std::alloc::{AllocError, Global};
use std::process::Abort;
use std::test::Fail;
use std::thread::Threads;
use test_runs::{Conditions, ample, checksum, run_files, text_bytes};
use test_tools::next_number;

/// The cells of 24 symbols of the 2K mode.
const CELLS: usize = 24 * 1705;

/// The header of a cell file of the 2K mode.
const HEADER: [u8; 8] = *b"DVTC\x02\x00\x00\x00";

/// The constellations with their hierarchies, and the results of the eight receptions of each, of four kinds of cells,
/// from the register zero and from any: their reports and the packets of HP and of LP, one run after another.
const CASES: [(&str, bool, (usize, u32)); 9] = [
    (
        "constellation = \"qpsk\"\nrate_hp = \"7/8\"\n",
        false,
        (776, 850_312_704),
    ),
    (
        "constellation = \"16qam\"\nrate_hp = \"2/3\"\n",
        false,
        (1_028, 1_488_718_888),
    ),
    (
        "constellation = \"16qam\"\nhierarchy = \"1\"\nrate_hp = \"7/8\"\nrate_lp = \"5/6\"\n",
        true,
        (1_272, 3_094_295_680),
    ),
    (
        "constellation = \"16qam\"\nhierarchy = \"2\"\nrate_hp = \"5/6\"\nrate_lp = \"7/8\"\n",
        true,
        (1_272, 4_018_828_416),
    ),
    (
        "constellation = \"16qam\"\nhierarchy = \"4\"\nrate_hp = \"3/4\"\nrate_lp = \"7/8\"\n",
        true,
        (1_272, 137_672_320),
    ),
    (
        "constellation = \"64qam\"\nrate_hp = \"7/8\"\n",
        false,
        (972, 2_857_897_840),
    ),
    (
        "constellation = \"64qam\"\nhierarchy = \"1\"\nrate_hp = \"7/8\"\nrate_lp = \"7/8\"\n",
        true,
        (1_272, 1_828_992_640),
    ),
    (
        "constellation = \"64qam\"\nhierarchy = \"2\"\nrate_hp = \"2/3\"\nrate_lp = \"3/4\"\n",
        true,
        (1_272, 2_280_338_816),
    ),
    (
        "constellation = \"64qam\"\nhierarchy = \"4\"\nrate_hp = \"7/8\"\nrate_lp = \"1/2\"\n",
        true,
        (1_272, 314_730_112),
    ),
];

// A file of such cells, with this part on both axes or random ones, with random weights from 0 to 31; and three bytes.
fn file_of(alloc: Global, part: Option<i16>) -> Result<Vec<u8>, AllocError> {
    let mut bytes = Vec::from_slice(alloc, HEADER.as_slice())?;
    let mut state = 23;
    for _ in 0..CELLS {
        for _ in 0..2u8 {
            let bits = match part {
                Some(number) => number.cast_unsigned(),
                None => (next_number(&mut state) >> 16) as u16,
            };
            bytes.extend_from_slice(bits.to_be_bytes().as_slice())?;
        }
        bytes.push((next_number(&mut state) >> 27) as u8)?;
    }
    bytes.extend_from_slice([0x5Au8; 3].as_slice())?;
    Ok(bytes)
}

// Receives such cells, with reads of part of a symbol, and appends the result to these bytes.
fn receive<R: Abort + Threads + Sync>(
    rt: &R,
    alloc: Global,
    settings: &str,
    two: bool,
    part: Option<i16>,
    to: &mut Vec<u8>,
) -> Result<(), AllocError> {
    let words = if two {
        "receive s a hp lp"
    } else {
        "receive s a hp"
    };
    let inputs = (file_of(alloc, part)?, Vec::new(alloc));
    let settings = text_bytes(alloc, settings, "")?;
    let pieces = Conditions {
        most: 7_000,
        ..ample(100_000)
    };
    let ran = run_files(rt, alloc, words, settings, inputs, 1, pieces)?;
    assert!(rt; ran.status == 0 && ran.made.hp && ran.made.lp == two);
    to.extend_from_slice(&ran.report)?;
    to.extend_from_slice(&ran.hp)?;
    to.extend_from_slice(&ran.lp)
}

// The results of the receptions with these lines.
fn left_by<R: Abort + Threads + Sync>(
    rt: &R,
    alloc: Global,
    lines: &str,
    two: bool,
) -> Result<Vec<u8>, AllocError> {
    let mut left = Vec::new(alloc);
    for start in ["zero", "any"] {
        let settings = format!(in alloc;
            "mode = \"2k\"\nguard = \"1/32\"\nstart = \"{start}\"\n{lines}"
        )?;
        for part in [Some(-32768), Some(32767), Some(0), None] {
            receive(rt, alloc, settings.as_str(), two, part, &mut left)?;
        }
    }
    Ok(left)
}

#[test]
fn cells_that_no_modulator_sends(rt: HostRuntime) -> Result<(), Fail> {
    let alloc = rt.alloc();
    for (lines, two, expected) in CASES {
        let left = left_by(&rt, alloc, lines, two)?;
        assert!(rt; (left.len(), checksum(&left)) == expected, "{lines}");
    }
    Ok(())
}

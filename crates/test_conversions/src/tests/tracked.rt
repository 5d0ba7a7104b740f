// The output of `track` for files of cells: the sums and digests are those of an independent program.
use super::tracking_files::{
    HEADER, TRACK, WIDE_HEADER, disturbed, has_digest, random_cells, still, sum_of, turned,
};
use std::alloc::{AllocError, Global};
use std::process::Abort;
use std::test::Fail;
use std::thread::Threads;
use test_runs::{
    BASE, Conditions, SUPER_FRAME, SYMBOL, WHOLE_NULLS, WIDE_SYMBOL, ample, null_cells,
    run_on_cells,
};

/// The capacity of the new file.
const ROOM: u32 = 500_000;

/// 16-QAM in the 8K mode at a guard interval of 1/4.
const WIDE: &str = "mode = \"8k\"\nconstellation = \"16qam\"\nrate_hp = \"1/2\"\nguard = \"1/4\"\n";

/// The expected result: the report, the sum of the new file's bytes, and its SHA-256.
type Found<'a> = (&'a str, u32, &'a str);

// Tracks a file, with reads of at most `most` bytes, and compares.
fn compare<R: Abort + Threads + Sync>(
    rt: &R,
    alloc: Global,
    settings: &'static str,
    cells: &[u8],
    most: u32,
    found: Found<'static>,
) -> Result<(), AllocError> {
    let conditions = Conditions {
        most: most.max(1),
        ..ample(ROOM)
    };
    let ran = run_on_cells(rt, alloc, TRACK, (settings, ""), cells, conditions)?;
    let sum = sum_of(&ran.cells);
    let same = has_digest(alloc, &ran.cells, found.2)?;
    assert!(rt; ran.status == 0, "{}", found.0);
    assert!(rt; ran.report.as_slice() == found.0.as_bytes(), "{}", found.0);
    assert!(rt; sum == found.1 && same, "{}", found.0);
    Ok(())
}

/// A number of symbols of the 2K mode, the sum of the random cells of that many symbols and three bytes, and the
/// expected result.
#[rattlefmt::skip]
static RANDOM: [(u32, u32, Found<'static>); 6] = [
    (1, 1_091_223, ("symbols 1 tail 3\n", 878_684, "8bb1a53065f189e4a375a6e47251e31fcc98207f1ce754a286d824da563711cc")),
    (3, 3_254_772, ("symbols 3 tail 3\n", 2_646_469, "7ed2b479258be059e38a7b163f02dd81b3772d2ee2acb2752b167dd4b05b8c0f")),
    (4, 4_344_261, ("symbols 4 tail 3\n", 3_556_512, "ece427ca81d178ce9bc87bd8831f8691a86ef05757e068432e5e729bc9f6bb38")),
    (7, 7_601_421, ("symbols 7 tail 3\n", 6_213_534, "e65f7ec599828c112729b910082538b20fc6eb04c03f96ccd12366b2e542a266")),
    (8, 8_668_015, ("symbols 8 tail 3\n", 7_095_984, "c52d8351c9077b98e75b6c3ad717485d4b29b53b817d78920d0f05c52245c1ea")),
    (15, 16_280_599, ("symbols 15 tail 3\n", 13_191_749, "328b8362488f834a9b61f30ea82e243900c4a72f1c59ad95c6831afb465d5c38")),
];

// Random cells, some with weights above 15, from one symbol to fifteen, with whole reads and with reads of 11 bytes.
#[test]
fn random_cells_of_few_symbols(rt: HostRuntime) -> Result<(), Fail> {
    let alloc = rt.alloc();
    for most in [u32::MAX, 11] {
        for (symbols, sum, found) in &RANDOM {
            let count = (*symbols).clamp(1, 15) * SYMBOL as u32 + 3;
            let cells = random_cells(alloc, &HEADER, count, *symbols)?;
            assert_eq!(&rt; sum_of(&cells), *sum);
            compare(&rt, alloc, BASE, &cells, most, *found)?;
        }
    }
    Ok(())
}

// The header alone, and one symbol of zeros, which give no gain: they stay 0 with weight 0.
#[test]
fn nothing_to_track(rt: HostRuntime) -> Result<(), Fail> {
    let alloc = rt.alloc();
    let none = run_on_cells(&rt, alloc, TRACK, (BASE, ""), &HEADER, ample(ROOM))?;
    assert!(&rt; none.status == 0 && none.report.as_slice() == "symbols 0 tail 0\n".as_bytes());
    assert!(&rt; none.cells.as_slice() == HEADER.as_slice());
    let mut zeros = Vec::from_slice(alloc, HEADER.as_slice())?;
    for place in 0..SYMBOL {
        zeros.push(if place % 5 == 4 { 15 } else { 0 })?;
    }
    let ran = run_on_cells(&rt, alloc, TRACK, (BASE, ""), &zeros, ample(ROOM))?;
    assert!(&rt; ran.status == 0 && ran.report.as_slice() == "symbols 1 tail 0\n".as_bytes());
    assert!(&rt; ran.cells.len() == 8 + SYMBOL && sum_of(&ran.cells) == sum_of(&HEADER));
    Ok(())
}

// Whether two parts of cells are within 64 of each other.
fn is_near(part: [u8; 2], other: [u8; 2]) -> bool {
    let part = i32::from(i16::from_be_bytes(part));
    let other = i32::from(i16::from_be_bytes(other));
    part - other <= 64 && other - part <= 64
}

// Whether each cell is close to the other, and each weight is 15.
fn are_near(cells: &[u8], others: &[u8]) -> bool {
    let mut near = cells.len() == others.len();
    for (cell, other) in cells.chunks_exact(5).zip(others.chunks_exact(5)) {
        let re = is_near([cell[0], cell[1]], [other[0], other[1]]);
        let im = is_near([cell[2], cell[3]], [other[2], other[3]]);
        near = near && re && im && cell[4] == 15;
    }
    near
}

// The super-frame of null packets, turned by a quarter, is restored and received.
#[test]
fn quarter_turn(rt: HostRuntime) -> Result<(), Fail> {
    let alloc = rt.alloc();
    let sent = null_cells(&rt, alloc, BASE, false)?;
    let cells = turned(alloc, &sent)?;
    let room = ample(SUPER_FRAME);
    let ran = run_on_cells(&rt, alloc, TRACK, (BASE, ""), &cells, room)?;
    assert!(&rt; ran.status == 0 && ran.report.as_slice() == "symbols 272 tail 0\n".as_bytes());
    assert_eq!(&rt; sum_of(&ran.cells), 232_894_504);
    let digest = "fd8eb29f2e97ec515ff0677ce9a518cdbbf71420227f8d18bfa271fc14595aa6";
    let same = has_digest(alloc, &ran.cells, digest)?;
    assert!(&rt; same);
    let (first, other) = (ran.cells.len().min(8), sent.len().min(8));
    assert!(&rt; are_near(&ran.cells[first..], &sent[other..]));
    let receive = "receive s a hp";
    let back = run_on_cells(&rt, alloc, receive, (BASE, ""), &ran.cells, room)?;
    assert!(&rt; back.status == 0 && back.report.as_slice() == WHOLE_NULLS.as_bytes());
    Ok(())
}

// Tracks a file of this sum and this digest, and compares.
fn compare_given<R: Abort + Threads + Sync>(
    rt: &R,
    alloc: Global,
    cells: &[u8],
    given: (u32, &str),
    found: Found<'static>,
) -> Result<(), AllocError> {
    assert_eq!(rt; sum_of(cells), given.0);
    let same = has_digest(alloc, cells, given.1)?;
    assert!(rt; same);
    compare(rt, alloc, BASE, cells, u32::MAX, found)
}

// Symbols hit by a pulse, and then noise: bad symbols are found by comparison with their neighbours, and the motion is
// followed.
#[test]
fn bad_symbols_and_noise(rt: HostRuntime) -> Result<(), Fail> {
    let alloc = rt.alloc();
    let sent = null_cells(&rt, alloc, BASE, false)?;
    let cells = disturbed(alloc, &sent)?;
    let given = "dadee93be79e4231b1bf688617d2de55fa5ad57cd8543f38068802c2d2941399";
    let digest = "a9f23d25db35324801f0ed441db763c2e88906ea197ed8ca7cde8a3413bee3f5";
    let found = ("symbols 48 tail 0\n", 40_357_773, digest);
    compare_given(&rt, alloc, &cells, (39_552_002, given), found)?;
    Ok(())
}

// Continual pilots that never change, in random cells: both residues are 0, and the tie gives slow.
#[test]
fn slow_on_a_tie(rt: HostRuntime) -> Result<(), Fail> {
    let alloc = rt.alloc();
    let cells = still(alloc)?;
    let given = "ad7ae21ec3d3750662a5fc2abf107198eb39a8e19f18983d3d023e12ee8e2ea4";
    let digest = "3bd6c11841030af796ba2f3682908fee388cbbf1d907571177ebfaf2945868dd";
    let found = ("symbols 24 tail 0\n", 21_497_926, digest);
    compare_given(&rt, alloc, &cells, (21_494_353, given), found)?;
    Ok(())
}

// Random cells of the 8K mode: nine symbols, so that two are given before the end.
#[test]
fn wide_symbols(rt: HostRuntime) -> Result<(), Fail> {
    let alloc = rt.alloc();
    let digest = "98c5cf2e8f81183f9e55be02582fbcb9a8a6eb6273573bd25b4cd9ca609ebf85";
    let cells = random_cells(alloc, &WIDE_HEADER, 9 * WIDE_SYMBOL as u32 + 5, 9)?;
    let found = ("symbols 9 tail 5\n", 31_726_969, digest);
    compare(&rt, alloc, WIDE, &cells, u32::MAX, found)?;
    Ok(())
}

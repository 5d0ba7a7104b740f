// Transmissions with a plan. The expected reports, lengths and sums are those of an independent program.
use std::alloc::{AllocError, Global};
use std::test::Fail;
use std::thread::Threads;
use test_runs::{
    BASE, File, Found, Held, LAYERED, SUPER_FRAME, SYMBOL, ample, checksum, noisy, run_files,
    stands, text_bytes,
};

/// LP appears with the second super-frame.
const LP_COMES: &str =
    "plan = [{ after = 1, constellation = \"16qam\", hierarchy = \"4\", rate_hp = \"1/2\", rate_lp = \"3/4\" }]\n";

/// LP disappears with it, for good.
const LP_GOES: &str =
    "max_symbols = 1000\nplan = [{ after = 1, constellation = \"qpsk\", rate_hp = \"1/2\" }]\n";

/// One stream in super-frames 0 and 2, two in super-frames 1 and 3, each time with other rates.
const LP_COMES_AGAIN: &str =
    "plan = [{ after = 1, constellation = \"16qam\", hierarchy = \"4\", rate_hp = \"1/2\", rate_lp = \"3/4\" }, { after = 2, constellation = \"qpsk\", rate_hp = \"2/3\" }, { after = 3, constellation = \"64qam\", hierarchy = \"1\", rate_hp = \"2/3\", rate_lp = \"1/2\" }]\n";

/// Two super-frames with their header.
const TWO_SUPER_FRAMES: u32 = 4_637_608;

/// Four super-frames with their header.
const FOUR_SUPER_FRAMES: u32 = 9_275_208;

/// Three super-frames and forty symbols, with their header.
const FRONT: usize = 8 + 856 * SYMBOL;

/// A thousand symbols with their header.
const THOUSAND_SYMBOLS: u32 = 8_525_008;

const SENT: &str = "hp packets 300 tail 0\nlp packets 100 tail 0\nsuperframes 2\n";

const RECEIVED: &str =
    "symbols 544 tail 0\ntps read 8 bad 0\nhp words 493 clean 493 corrected 0 bad 0 unphased 0 unmerged 0\nlp words 367 clean 367 corrected 0 bad 0 unphased 0 unmerged 0\n";

const RESCUED: &str =
    "symbols 544 tail 0\nhp words 493 clean 493 corrected 0 rescued 0 bad 0 unphased 0 unmerged 0\nlp words 367 clean 367 corrected 0 rescued 0 bad 0 unphased 0 unmerged 0\n";

const HP: Held = Some((92_684, 260_642_531));

const LP: Held = Some((68_996, 1_482_550_705));

// The cells of these two files, the status and the report.
fn sent<R: Threads + Sync>(
    rt: &R,
    alloc: Global,
    settings: (&str, &str),
    packets: (u32, u32),
    room: u32,
) -> Result<(u8, Vec<u8>, Vec<u8>), AllocError> {
    let hp = File::Counted(packets.0, 0).bytes(alloc)?;
    let lp = File::Counted(packets.1, 0).bytes(alloc)?;
    let settings = text_bytes(alloc, settings.0, settings.1)?;
    let words = "modulate s a b cells";
    let ran = run_files(rt, alloc, words, settings, (hp, lp), 1000, ample(room))?;
    Ok((ran.status, ran.report, ran.cells))
}

// Whether the command has this result for cells of a transmission with this plan.
fn comes_back<R: Threads + Sync>(
    rt: &R,
    alloc: Global,
    plan: &str,
    words: &str,
    cells: &[u8],
    found: Found<'_>,
) -> Result<bool, AllocError> {
    let settings = text_bytes(alloc, BASE, plan)?;
    let inputs = (Vec::from_slice(alloc, cells)?, Vec::new(alloc));
    let ran = run_files(rt, alloc, words, settings, inputs, 1, ample(SUPER_FRAME))?;
    Ok(stands(&ran, found))
}

// Whether a carrier's cell is inverted in a symbol relative to the symbol before it: a TPS bit (EN 300 744, 4.6). The
// signs of the real parts are compared.
fn is_turned(cells: &[u8], symbol: usize, carrier: usize) -> bool {
    let at = 8 + symbol.min(600) * SYMBOL + 5 * carrier.min(1704);
    at < cells.len() && (cells[at] ^ cells[at.saturating_sub(SYMBOL)]) >= 128
}

/// The TPS bits s25 to s35 of the first super-frame: 16-QAM, alpha 4, 1/2 and 3/4, which are those of the next one.
const ANNOUNCED: [bool; 11] = [
    false, true, false, true, true, false, false, false, false, true, false,
];

// Whether each of the four frames of the first super-frame announces that, at one TPS carrier.
fn are_announced(cells: &[u8]) -> bool {
    for frame in 0..4usize {
        for (place, bit) in ANNOUNCED.iter().enumerate() {
            if is_turned(cells, 68 * frame + 25 + place.min(10), 34) != *bit {
                return false;
            }
        }
    }
    true
}

// The packets received of a transmission of two files: those of the files, then null packets.
#[test]
fn packets_of_a_plan(rt: HostRuntime) -> Result<(), Fail> {
    let alloc = rt.alloc();
    let (_, _, cells) = sent(&rt, alloc, (BASE, LP_COMES), (300, 100), TWO_SUPER_FRAMES)?;
    assert!(rt; cells.len() == 4_637_608 && are_announced(&cells));
    let settings = text_bytes(alloc, BASE, LP_COMES)?;
    let words = "receive s a hp lp";
    let inputs = (cells, Vec::new(alloc));
    let ran = run_files(&rt, alloc, words, settings, inputs, 1, ample(SUPER_FRAME))?;
    assert!(rt; ran.status == 0 && ran.report.as_slice() == RECEIVED.as_bytes());
    assert!(rt; ran.hp == File::Counted(300, 193).bytes(alloc)?);
    assert!(rt; ran.lp == File::Counted(100, 267).bytes(alloc)?);
    Ok(())
}

// A transmission that becomes one of two streams, and its reception.
#[test]
fn lp_comes(rt: HostRuntime) -> Result<(), Fail> {
    let alloc = rt.alloc();
    let (status, report, cells) = sent(&rt, alloc, (BASE, LP_COMES), (300, 100), TWO_SUPER_FRAMES)?;
    assert!(rt; status == 0 && report.as_slice() == SENT.as_bytes());
    assert_eq!(rt; (cells.len(), checksum(&cells)), (4_637_608, 2_307_751_837));
    let cases = [
        ("receive s a hp lp", (0, RECEIVED, HP, LP)),
        ("rescue s a hp lp", (0, RESCUED, HP, LP)),
        ("receive s a hp", (3, "settings form\n", None, None)),
        ("rescue s a hp", (3, "settings form\n", None, None)),
    ];
    for (words, found) in cases {
        assert!(rt;
            comes_back(&rt, alloc, LP_COMES, words, &cells, found)?,
            "{}",
            words
        );
    }
    Ok(())
}

// LP disappears before all its packets are sent: the transmission continues to its limit.
#[test]
fn lp_goes(rt: HostRuntime) -> Result<(), Fail> {
    let alloc = rt.alloc();
    let (status, report, cells) = sent(&rt, alloc, (LAYERED, LP_GOES), (0, 400), THOUSAND_SYMBOLS)?;
    assert!(rt; status == 8 && report.as_slice() == b"limit 1000\n".as_slice());
    assert_eq!(rt; (cells.len(), checksum(&cells)), (8_525_008, 884_072_588));
    Ok(())
}

const RECEIVED_OUT_OF_NOISE: &str =
    "lp unmerged at 612164\nhp unmerged at 820042\nlp unmerged at 614213\nhp unmerged at 822091\nlp unmerged at 616262\nsymbols 856 tail 0\ntps read 12 bad 0\nhp words 878 clean 864 corrected 0 bad 14 unphased 0 unmerged 2\nlp words 441 clean 63 corrected 281 bad 97 unphased 0 unmerged 3\n";

const RESCUED_OUT_OF_NOISE: &str =
    "lp unmerged at 612164\nhp unmerged at 820042\nlp unmerged at 614213\nhp unmerged at 822091\nlp unmerged at 616262\nsymbols 856 tail 0\nhp words 878 clean 864 corrected 0 rescued 0 bad 14 unphased 0 unmerged 2\nlp words 441 clean 63 corrected 281 rescued 15 bad 82 unphased 0 unmerged 3\n";

// Replaces the cells of the last three symbols of super-frame 1 so that no paths merge there: all are (0, 11585).
fn spoil(file: &mut [u8]) {
    for place in 8 + 541 * SYMBOL..8 + 544 * SYMBOL {
        if place < file.len() {
            file[place] = [0x00, 0x00, 0x2D, 0x41, 0x0F][(place - 8) % 5];
        }
    }
}

// LP appears, disappears and reappears, with noise on all cells: the reports of its last symbol are output once, and it
// continues where it stopped. Of 97 words of LP without a nearest codeword 15 are rescued.
#[test]
fn lp_comes_again(rt: HostRuntime) -> Result<(), Fail> {
    let alloc = rt.alloc();
    let settings = (BASE, LP_COMES_AGAIN);
    let (status, _, cells) = sent(&rt, alloc, settings, (700, 400), FOUR_SUPER_FRAMES)?;
    assert_eq!(rt;
        (status, cells.len(), checksum(&cells)),
        (0, 9_275_208, 3_812_368_347)
    );
    let mut file = noisy(alloc, &cells[..FRONT.min(cells.len())], 2_680)?;
    spoil(&mut file);
    let hp = Some((165_064, 1_009_138_521));
    let received = (0, RECEIVED_OUT_OF_NOISE, hp, Some((82_908, 2_747_265_385)));
    let rescued = (0, RESCUED_OUT_OF_NOISE, hp, Some((82_908, 3_297_524_247)));
    for (words, found) in [
        ("receive s a hp lp", received),
        ("rescue s a hp lp", rescued),
    ] {
        assert!(rt;
            comes_back(&rt, alloc, LP_COMES_AGAIN, words, &file, found)?,
            "{}",
            words
        );
    }
    Ok(())
}

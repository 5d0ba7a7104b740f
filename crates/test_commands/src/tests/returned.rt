// Packets modulated and received again. The expected sums of cells, counts and reports are those of an independent
// program.
use super::cells::{HEADER, SYMBOL, number_at, put_number};
use mode_set::Mode;
use pilots::CarrierKind::Payload;
use pilots::kind;
use std::alloc::{AllocError, Global};
use std::process::Abort;
use std::test::Fail;
use std::thread::Threads;
use test_runs::{BASE, File, LAYERED, ample, checksum, run_files, text_bytes};

const LAYERED_64: &str =
    "mode = \"2k\"\nconstellation = \"64qam\"\nhierarchy = \"1\"\nrate_hp = \"5/6\"\nrate_lp = \"2/3\"\nguard = \"1/4\"\ncell_id = 43981\n";

const REPORT: &str =
    "symbols 272 tail 0\ntps read 4 bad 0\nhp words 241 clean 241 corrected 0 bad 0 unphased 0 unmerged 0\nlp words 367 clean 367 corrected 0 bad 0 unphased 0 unmerged 0\n";

const REPORT_64: &str =
    "symbols 272 tail 0\ntps read 4 bad 0\nhp words 409 clean 409 corrected 0 bad 0 unphased 0 unmerged 0\nlp words 661 clean 661 corrected 0 bad 0 unphased 0 unmerged 0\n";

const REPORT_8K: &str =
    "symbols 816 tail 0\ntps read 12 bad 0\nhp words 12085 clean 12085 corrected 0 bad 0 unphased 0 unmerged 0\n";

const REPORT_8K_LAYERED: &str =
    "symbols 544 tail 0\ntps read 8 bad 0\nhp words 2677 clean 2677 corrected 0 bad 0 unphased 0 unmerged 0\nlp words 6037 clean 6037 corrected 0 bad 0 unphased 0 unmerged 0\n";

const EIGHT: &str =
    "mode = \"8k\"\nconstellation = \"64qam\"\nrate_hp = \"2/3\"\nguard = \"1/32\"\n";

const EIGHT_LAYERED: &str =
    "mode = \"8k\"\nconstellation = \"64qam\"\nhierarchy = \"2\"\nrate_hp = \"2/3\"\nrate_lp = \"3/4\"\nguard = \"1/32\"\n";

// The cells for these packets, if `modulate` reports this.
fn sent<R: Abort + Threads + Sync>(
    rt: &R,
    alloc: Global,
    text: &str,
    settings: &str,
    packets: (u32, u32),
    report: &str,
    room: u32,
) -> Result<Vec<u8>, AllocError> {
    let settings = text_bytes(alloc, settings, "")?;
    let hp = File::Counted(packets.0, 0).bytes(alloc)?;
    let lp = File::Counted(packets.1, 0).bytes(alloc)?;
    let ran = run_files(rt, alloc, text, settings, (hp, lp), 10_000, ample(room))?;
    assert!(rt;
        ran.status == 0 && ran.report.as_slice() == report.as_bytes(),
        "{report}"
    );
    Ok(ran.cells)
}

// Receives these cells, and compares the report and the packets: this number of each stream, then this number of null
// packets.
fn comes_back<R: Abort + Threads + Sync>(
    rt: &R,
    alloc: Global,
    text: &str,
    settings: &str,
    cells: Vec<u8>,
    report: &str,
    packets: (File, File),
) -> Result<(), AllocError> {
    let settings = text_bytes(alloc, settings, "")?;
    let inputs = (cells, Vec::new(alloc));
    let ran = run_files(rt, alloc, text, settings, inputs, 1, ample(2_300_000))?;
    assert!(rt;
        ran.status == 0 && ran.report.as_slice() == report.as_bytes(),
        "{report}"
    );
    let expected = packets.0.bytes(alloc)?;
    assert!(rt; ran.hp == expected, "{report}");
    let expected = packets.1.bytes(alloc)?;
    assert!(rt; ran.lp == expected, "{report}");
    Ok(())
}

// Moves every data cell of a symbol of the 2K mode by 1136 on both axes.
fn move_data(rt: &impl Abort, cells: &mut [u8], symbol: usize) {
    assert!(rt; symbol < 272);
    let l = (symbol % 68) as u8;
    for k in 0..1705u32 {
        if let Payload(_) = kind(Mode::M2k, l, k) {
            let at = 8 + SYMBOL * symbol + 5 * k as usize;
            for place in [at, at + 2] {
                let number = number_at(rt, cells, place).wrapping_add(1136);
                put_number(rt, cells, place, number);
            }
        }
    }
}

const SEND_ONE: &str = "modulate s a cells";

const SEND: &str = "modulate s a b cells";

const BOTH: &str = "receive s a hp lp";

// Both streams of a hierarchy, in 16-QAM also with noise within the tolerance.
#[test]
fn two_streams_and_noise(rt: HostRuntime) -> Result<(), Fail> {
    let alloc = rt.alloc();
    let room = 2_318_808;
    let made = "hp packets 100 tail 0\nlp packets 200 tail 0\nsuperframes 1\n";
    let cells = sent(&rt, alloc, SEND, LAYERED, (100, 200), made, room)?;
    assert_eq!(rt; checksum(&cells), 1_354_769_138);
    let mut moved = cells.clone()?;
    let packets = (File::Counted(100, 141), File::Counted(200, 167));
    comes_back(&rt, alloc, BOTH, LAYERED, cells, REPORT, packets)?;
    for symbol in 0..272usize {
        move_data(&rt, &mut moved, symbol);
    }
    comes_back(&rt, alloc, BOTH, LAYERED, moved, REPORT, packets)?;
    let made = "hp packets 150 tail 0\nlp packets 250 tail 0\nsuperframes 1\n";
    let cells = sent(&rt, alloc, SEND, LAYERED_64, (150, 250), made, room)?;
    assert_eq!(rt; checksum(&cells), 2_596_778_767);
    let packets = (File::Counted(150, 259), File::Counted(250, 411));
    comes_back(&rt, alloc, BOTH, LAYERED_64, cells, REPORT_64, packets)?;
    Ok(())
}

// Only the second of two super-frames with 300 packets: its first four words have no phase, and the packets from number
// 256 on are received.
#[test]
fn start_in_the_second_super_frame(rt: HostRuntime) -> Result<(), Fail> {
    let alloc = rt.alloc();
    let made = "hp packets 300 tail 0\nsuperframes 2\n";
    let cells = sent(&rt, alloc, SEND_ONE, BASE, (300, 0), made, 4_637_608)?;
    assert_eq!(rt; checksum(&cells), 765_684_459);
    assert_eq!(rt; cells.len(), 4_637_608);
    let settings = text_bytes(alloc, BASE, "start = \"any\"\n")?;
    let mut second = Vec::from_slice(alloc, HEADER.as_slice())?;
    second.extend_from_slice(&cells[8 + 272 * SYMBOL..])?;
    let inputs = (second, Vec::new(alloc));
    let ran = run_files(
        &rt,
        alloc,
        "receive s a hp",
        settings,
        inputs,
        1,
        ample(50_000),
    )?;
    assert_eq!(rt; ran.status, 0);
    let report =
        "symbols 272 tail 0\ntps read 4 bad 0\nhp words 241 clean 241 corrected 0 bad 0 unphased 4 unmerged 0\n";
    assert!(rt; ran.report.as_slice() == report.as_bytes());
    let packets = File::Counted(300, 193).bytes(alloc)?;
    assert!(rt; 48_128 <= packets.len());
    assert!(rt; &ran.hp[..] == &packets[48_128..]);
    Ok(())
}

// Ten thousand packets in three super-frames of the 8K mode.
#[test]
fn ten_thousand_packets(rt: HostRuntime) -> Result<(), Fail> {
    let alloc = rt.alloc();
    let made = "hp packets 10000 tail 0\nsuperframes 3\n";
    let cells = sent(&rt, alloc, SEND_ONE, EIGHT, (10_000, 0), made, 27_813_368)?;
    assert_eq!(rt; (cells.len(), checksum(&cells)), (27_813_368, 482_701_309));
    let packets = (File::Counted(10_000, 2_085), File::Nulls(0, 0));
    comes_back(
        &rt,
        alloc,
        "receive s a hp",
        EIGHT,
        cells,
        REPORT_8K,
        packets,
    )?;
    Ok(())
}

// Both streams of a hierarchy in two super-frames of the 8K mode.
#[test]
fn two_streams_of_the_8k_mode(rt: HostRuntime) -> Result<(), Fail> {
    let alloc = rt.alloc();
    let made = "hp packets 1000 tail 0\nlp packets 4000 tail 0\nsuperframes 2\n";
    let packets = (1_000, 4_000);
    let cells = sent(&rt, alloc, SEND, EIGHT_LAYERED, packets, made, 18_542_248)?;
    assert_eq!(rt;
        (cells.len(), checksum(&cells)),
        (18_542_248, 2_284_342_855)
    );
    let packets = (File::Counted(1_000, 1_677), File::Counted(4_000, 2_037));
    comes_back(
        &rt,
        alloc,
        BOTH,
        EIGHT_LAYERED,
        cells,
        REPORT_8K_LAYERED,
        packets,
    )?;
    Ok(())
}

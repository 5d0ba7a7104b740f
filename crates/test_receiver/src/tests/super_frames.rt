// Transmissions against those of an independent program with the same packets.
ghost use Rattle.std.specs.Prelude.{◌≡◌, ◌*◌, ◌≤◌, length, vec_capacity};

use super::sending::null_symbols;
use mode_set::{Carriers, Mode, Mode2k, Mode8k, Settings};
use modulator::{Modulator, Want};
use std::alloc::{AllocError, Global};
use std::process::Abort;
use std::rt::HostRuntime;
use std::test::Fail;
use ts_packet::Packet;

const BASE: &str = "mode = \"2k\"\nconstellation = \"qpsk\"\nrate_hp = \"1/2\"\nguard = \"1/32\"\n";

const TWO_STREAMS: &str =
    "mode = \"8k\"\nconstellation = \"64qam\"\nhierarchy = \"2\"\nrate_hp = \"2/3\"\nrate_lp = \"3/4\"\nguard = \"1/32\"\n";

// A second stream that appears.
const COMES: &str =
    "mode = \"2k\"\nconstellation = \"qpsk\"\nrate_hp = \"1/2\"\nguard = \"1/32\"\nplan = [{ after = 1, constellation = \"16qam\", hierarchy = \"4\", rate_hp = \"1/2\", rate_lp = \"3/4\" }]\n";

// One that disappears and reappears, while the rate of HP changes each time.
const GOES_AND_COMES: &str =
    "mode = \"2k\"\nconstellation = \"16qam\"\nhierarchy = \"4\"\nrate_hp = \"1/2\"\nrate_lp = \"3/4\"\nguard = \"1/32\"\nplan = [{ after = 1, constellation = \"qpsk\", rate_hp = \"5/6\" }, { after = 2, constellation = \"64qam\", hierarchy = \"1\", rate_hp = \"2/3\", rate_lp = \"7/8\" }]\n";

// LP has 378 words in the first super-frame and none later: exactly 367 packets fit.
const GOES: &str =
    "mode = \"2k\"\nconstellation = \"16qam\"\nhierarchy = \"4\"\nrate_hp = \"1/2\"\nrate_lp = \"3/4\"\nguard = \"1/32\"\nplan = [{ after = 1, constellation = \"qpsk\", rate_hp = \"1/2\" }]\n";

// Settings, super-frames, packets of HP and of LP before the null packets, and the sum of all bytes: null packets
// alone; HP and LP, which end within the super-frame; a stream that fills it; both modes; changing parameters.
static TRANSMISSIONS: [(&str, u16, u16, u16, u32); 6] = [
    (BASE, 1, 0, 0, 1647971123),
    (
        "mode = \"2k\"\nconstellation = \"16qam\"\nhierarchy = \"4\"\nrate_hp = \"1/2\"\nrate_lp = \"3/4\"\nguard = \"1/8\"\n",
        1,
        100,
        200,
        3882553187,
    ),
    (
        "mode = \"2k\"\nconstellation = \"64qam\"\nrate_hp = \"7/8\"\nguard = \"1/4\"\ncell_id = 4660\n",
        1,
        1000,
        0,
        1939185789,
    ),
    (
        "mode = \"8k\"\nconstellation = \"64qam\"\nhierarchy = \"2\"\nrate_hp = \"2/3\"\nrate_lp = \"5/6\"\nguard = \"1/16\"\ncell_id = 43981\n",
        1,
        1000,
        1500,
        2560115016,
    ),
    (COMES, 2, 300, 100, 331601128),
    (GOES_AND_COMES, 3, 500, 800, 1902376580),
];

// Settings, packets of HP and of LP, and the super-frames that they need. Eleven words more than packets: 241 packets
// fill a super-frame of 252 words, 242 need a second one.
static LENGTHS: [(&str, u64, u64, Option<u64>); 16] = [
    (BASE, 0, 0, Some(1)),
    (BASE, 241, 0, Some(1)),
    (BASE, 242, 0, Some(2)),
    (BASE, 300, 0, Some(2)),
    (BASE, 493, 0, Some(2)),
    (BASE, 494, 0, Some(3)),
    (TWO_STREAMS, 1000, 4000, Some(2)),
    (TWO_STREAMS, 1333, 3013, Some(1)),
    (TWO_STREAMS, 1334, 0, Some(2)),
    (TWO_STREAMS, 0, 3014, Some(2)),
    (COMES, 300, 100, Some(2)),
    (GOES_AND_COMES, 500, 800, Some(3)),
    (GOES, 0, 400, None),
    (GOES, 0, 368, None),
    (GOES, 0, 367, Some(1)),
    (GOES, 100000000, 367, Some(396826)),
];

// Packets from a formula, and then null packets.
#[derive(Drop)]
struct Source {
    count: u16,
    next: u16,
    salt: u8,
}

// Byte j of packet i is 37 i + 11 j + (j² mod 7) (i + 1) + salt modulo 256, after the sync byte.
fn packet_bytes(i: u16, salt: u8) -> [u8; 188] {
    let mut bytes = [0x47u8; 188];
    for (j, byte) in bytes.iter_mut().enumerate() {
        if j > 0 {
            let factor = (j.wrapping_mul(j) % 7) as u8;
            let (i, j) = ((i % 256) as u8, (j % 256) as u8);
            *byte = i
                .wrapping_mul(37)
                .wrapping_add(j.wrapping_mul(11))
                .wrapping_add(factor.wrapping_mul(i.wrapping_add(1)))
                .wrapping_add(salt);
        }
    }
    bytes
}

fn next_packet(rt: &impl Abort, source: &mut Source) -> Packet {
    if source.next >= source.count {
        return Packet::null();
    }
    let bytes = packet_bytes(source.next, source.salt);
    source.next += 1;
    Packet::read(&bytes).expect(rt, "a packet")
}

fn put_next<M: Carriers>(rt: &impl Abort, tx: &mut Modulator<M>, sources: &mut (Source, Source)) {
    match tx.wants() {
        Want::Hp => tx.put(&next_packet(rt, &mut sources.0)),
        Want::Lp => tx.put(&next_packet(rt, &mut sources.1)),
        Want::Symbol => {}
    }
}

// The next symbol, replacing the content of `to`.
fn next_symbol<M: Carriers>(
    rt: &impl Abort,
    tx: &mut Modulator<M>,
    sources: &mut (Source, Source),
    to: &mut Vec<u8>,
)
    requires { 34085 ≤ vec_capacity to.old }
    ensures { 34085 ≤ vec_capacity to.new }
{
    for _ in 0..40u8 {
        put_next(rt, tx, sources);
    }
    to.clear();
    match tx.wants() {
        Want::Hp => assert!(rt; false),
        Want::Lp => assert!(rt; false),
        Want::Symbol => {
            assert!(rt; tx.made() < 4294967296);
            tx.symbol(to);
        }
    }
}

// The next symbol over a slice of its length.
fn next_symbol_over<M: Carriers>(
    rt: &impl Abort,
    tx: &mut Modulator<M>,
    sources: &mut (Source, Source),
    to: &mut [u8],
)
    requires { length to.old ≡ 5 * M.K }
{
    for _ in 0..40u8 {
        put_next(rt, tx, sources);
    }
    assert!(rt; tx.wants() == Want::Symbol);
    assert!(rt; tx.made() < 4294967296);
    tx.symbol_into(to);
}

// The bytes as the digits of a number in base 31, modulo 2^32.
fn with_bytes(sum: u32, bytes: &[u8]) -> u32 {
    bytes.iter().fold(
        sum,
        |sum, byte| sum.wrapping_mul(31).wrapping_add(*byte as u32),
    )
}

fn sources_of(hp: u16, lp: u16) -> (Source, Source) {
    let hp = Source {
        count: hp,
        next: 0,
        salt: 1,
    };
    let lp = Source {
        count: lp,
        next: 0,
        salt: 100,
    };
    (hp, lp)
}

// The sum of all bytes of this number of super-frames.
fn super_frames_of<M: Carriers>(
    rt: &impl Abort,
    alloc: Global,
    settings: &Settings,
    frames: u16,
    hp: u16,
    lp: u16,
) -> Result<u32, AllocError>
    requires { settings.now.mode ≡ M.MODE }
{
    let mut sources = sources_of(hp, lp);
    let mut sum = 0;
    let mut bytes = Vec::with_capacity(alloc, 34085)?;
    let mut tx = Modulator::<M>::new(alloc, settings)?;
    for _ in 0..272 * frames as u32 {
        next_symbol(rt, &mut tx, &mut sources, &mut bytes);
        sum = with_bytes(sum, &bytes);
    }
    assert!(rt; tx.made() == 272 * frames as u64);
    Ok(sum)
}

fn settings_of(rt: &impl Abort, alloc: Global, document: &str) -> Settings {
    Settings::read(alloc, document.as_bytes()).expect(rt, "the settings")
}

fn sum_of(
    rt: &impl Abort,
    alloc: Global,
    settings: &Settings,
    frames: u16,
    hp: u16,
    lp: u16,
) -> Result<u32, AllocError> {
    match settings.mode {
        Mode::M2k => super_frames_of::<Mode2k>(rt, alloc, settings, frames, hp, lp),
        Mode::M8k => super_frames_of::<Mode8k>(rt, alloc, settings, frames, hp, lp),
    }
}

#[test]
fn super_frames_of_another_program(rt: HostRuntime) -> Result<(), Fail> {
    let alloc = rt.alloc();
    for (document, frames, hp, lp, sum) in &TRANSMISSIONS {
        let settings = settings_of(&rt, alloc, document);
        let found = sum_of(&rt, alloc, &settings, *frames, *hp, *lp)?;
        assert!(rt; found == *sum, "{document}");
    }
    Ok(())
}

#[test]
fn super_frames_for_packets(rt: HostRuntime) {
    for (document, hp, lp, frames) in &LENGTHS {
        let settings = settings_of(&rt, rt.alloc(), document);
        assert!(rt; *hp <= 100000000 && *lp <= 100000000);
        let found = match settings.mode {
            Mode::M2k => Modulator::<Mode2k>::super_frames(&settings, *hp, *lp),
            Mode::M8k => Modulator::<Mode8k>::super_frames(&settings, *hp, *lp),
        };
        assert!(rt; found == *frames, "{document}");
    }
}

// Two modulators with the same packets: one appends each symbol, and one writes it over a slice.
fn check_both_ways<M: Carriers>(
    rt: &impl Abort,
    alloc: Global,
    settings: &Settings,
) -> Result<(), AllocError>
    requires { settings.now.mode ≡ M.MODE }
{
    let mut sources = sources_of(50, 60);
    let mut same_sources = sources_of(50, 60);
    let mut appended = Vec::with_capacity(alloc, 34085)?;
    let mut written = vec![in alloc; 0u8; 5 * M::K as usize]?;
    let mut appending = Modulator::<M>::new(alloc, settings)?;
    let mut writing = Modulator::<M>::new(alloc, settings)?;
    for number in 0..10u8 {
        next_symbol(rt, &mut appending, &mut sources, &mut appended);
        assert!(rt; written.len() == 5 * M::K as usize);
        next_symbol_over(rt, &mut writing, &mut same_sources, &mut written);
        assert!(rt;
            appended.as_slice() == written.as_slice(),
            "symbol {number}"
        );
    }
    Ok(())
}

#[test]
fn symbols_over_a_slice(rt: HostRuntime) -> Result<(), Fail> {
    let alloc = rt.alloc();
    for document in [BASE, TWO_STREAMS] {
        let settings = settings_of(&rt, alloc, document);
        match settings.mode {
            Mode::M2k => check_both_ways::<Mode2k>(&rt, alloc, &settings)?,
            Mode::M8k => check_both_ways::<Mode8k>(&rt, alloc, &settings)?,
        }
    }
    Ok(())
}

// Pilots, a TPS cell and a data cell of the first symbol of null packets, and the TPS cell of the fourth.
#[test]
fn first_cells(rt: HostRuntime) -> Result<(), Fail> {
    let bytes = null_symbols(&rt, rt.alloc(), 4)?;
    assert_eq!(rt; bytes.len(), 4 * 8525);
    assert_eq!(rt;
        &bytes[..10],
        [0xAA, 0xAB, 0, 0, 15, 0xD2, 0xBF, 0x2D, 0x41, 15u8].as_slice()
    );
    assert_eq!(rt; &bytes[60..65], [0x55, 0x55, 0, 0, 15u8].as_slice());
    assert_eq!(rt; &bytes[170..175], [0x40, 0, 0, 0, 15u8].as_slice());
    assert_eq!(rt; &bytes[25745..25750], [0xC0, 0, 0, 0, 15u8].as_slice());
    Ok(())
}

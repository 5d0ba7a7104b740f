// The command `inner`. The expected bytes are those of an independent program.
use super::coded::{Case, FREE, Part, first_wrong, parts_of, run_on};
use station_core::{Failing, InPort};
use std::alloc::{AllocError, Global};
use std::process::Abort;
use std::test::Fail;
use std::thread::Threads;
use test_runs::{BASE, File, UNMADE};

const FORM: &str = "inner s a out";

/// One null packet.
const NULL: File = File::Nulls(1, 0);

/// `BASE` at 5/6, where no packet ends with a whole byte.
const FIVE_OF_SIX: &str =
    "mode = \"2k\"\nconstellation = \"qpsk\"\nrate_hp = \"5/6\"\nguard = \"1/32\"\n";

/// `BASE` at 7/8.
const SEVEN_OF_EIGHT: &str =
    "mode = \"2k\"\nconstellation = \"qpsk\"\nrate_hp = \"7/8\"\nguard = \"1/32\"\n";

const TWO_THIRDS: &str =
    "mode = \"2k\"\nconstellation = \"qpsk\"\nrate_hp = \"2/3\"\nguard = \"1/32\"\n";

const THREE_QUARTERS: &str =
    "mode = \"2k\"\nconstellation = \"qpsk\"\nrate_hp = \"3/4\"\nguard = \"1/32\"\n";

static BEGINS: [Part; 1] = [(0, &[0xE2, 0xBE, 0xAC, 0x00])];

const SAMPLE: File = File::Counted(100, 0);

const TOLD: &str = "hp packets 100 tail 0\n";

#[rattlefmt::skip]
static SAMPLES: [Case; 5] = [
    (FORM, (BASE, ""), SAMPLE, FREE, (0, TOLD, 40_800, 615_776_147)),
    (FORM, (TWO_THIRDS, ""), SAMPLE, FREE, (0, TOLD, 30_600, 1_202_359_747)),
    (FORM, (THREE_QUARTERS, ""), SAMPLE, FREE, (0, TOLD, 27_200, 636_703_022)),
    (FORM, (FIVE_OF_SIX, ""), SAMPLE, FREE, (0, TOLD, 24_480, 3_195_147_055)),
    (FORM, (SEVEN_OF_EIGHT, ""), SAMPLE, FREE, (0, TOLD, 23_315, 1_587_361_302)),
];

#[test]
fn one_packet_and_a_sample_at_each_rate(rt: HostRuntime) -> Result<(), Fail> {
    let left = parts_of(&rt, rt.alloc(), (FORM, 1), "hp packets 1 tail 0\n", &BEGINS)?;
    assert_eq!(rt; left, (0, 408, true, None));
    assert_eq!(rt; first_wrong(&rt, rt.alloc(), &SAMPLES)?, None);
    Ok(())
}

const NO_GUARD: &str = "mode = \"2k\"\nconstellation = \"qpsk\"\nrate_hp = \"1/2\"\n";

const TWICE: &str =
    "plan = [{ after = 3, constellation = \"qpsk\", rate_hp = \"1/2\" }, { after = 3, constellation = \"qpsk\", rate_hp = \"1/2\" }]\n";

const CLASH: &str =
    "plan = [{ after = 3, constellation = \"qpsk\", hierarchy = \"2\", rate_hp = \"1/2\" }]\n";

/// The input is not opened.
const GONE: &str = "inner s gone out";

/// No packet.
const NONE: File = File::Nulls(0, 0);

#[rattlefmt::skip]
static REFUSED: [Case; 9] = [
    (GONE, (BASE, "hierarchy = \"2\"\n"), NONE, FREE, (3, "settings clash hierarchy\n", 0, 0)),
    (GONE, (BASE, "colour = \"red\"\n"), NONE, FREE, (3, "settings unknown 0\n", 0, 0)),
    (GONE, (BASE, "workers = 0\n"), NONE, FREE, (3, "settings value workers\n", 0, 0)),
    (GONE, (BASE, TWICE), NONE, FREE, (3, "settings value plan\n", 0, 0)),
    (GONE, (BASE, CLASH), NONE, FREE, (3, "settings value plan\n", 0, 0)),
    (GONE, (BASE, "rate_lp = \"1/2\"\n"), NONE, FREE, (3, "settings clash rate_lp\n", 0, 0)),
    (GONE, (NO_GUARD, ""), NONE, FREE, (3, "settings missing guard\n", 0, 0)),
    (GONE, ("mode =", ""), NONE, FREE, (3, "settings not toml\n", 0, 0)),
    (GONE, ("mode = \"2k\"\n", "mode = \"2k\"\n"), NONE, FREE, (3, "settings not toml\n", 0, 0)),
];

// Runs the command with this number of spaces for settings, and returns whether it is rejected with this text.
fn is_refused<R: Abort + Threads + Sync>(
    rt: &R,
    alloc: Global,
    count: usize,
    text: &str,
) -> Result<bool, AllocError> {
    let settings = vec![in alloc; b' '; count]?;
    let ran = run_on(rt, alloc, GONE, settings, NONE, FREE)?;
    Ok(ran.status == 3 && ran.report.as_slice() == text.as_bytes() && ran.made == UNMADE)
}

#[test]
fn refused_settings(rt: HostRuntime) -> Result<(), Fail> {
    let alloc = rt.alloc();
    assert_eq!(rt; first_wrong(&rt, alloc, &REFUSED)?, None);
    assert!(rt; is_refused(&rt, alloc, 65_537, "settings too long\n")?);
    assert!(rt; is_refused(&rt, alloc, 65_536, "settings missing mode\n")?);
    Ok(())
}

const FAULT: (u8, &str, usize, u32) = (5, "read fault\n", 0, 0);

#[rattlefmt::skip]
static FAULTS: [Case; 8] = [
    (FORM, (FIVE_OF_SIX, ""), NULL, FREE, (0, "hp packets 1 tail 0\n", 245, 3_124_305_410)),
    ("inner gone a out", (FIVE_OF_SIX, ""), NULL, FREE, FAULT),
    ("inner s gone out", (FIVE_OF_SIX, ""), NULL, FREE, FAULT),
    (FORM, (FIVE_OF_SIX, ""), NULL, (Some(Failing::Attach(InPort::Settings, 1)), 100, u32::MAX), FAULT),
    (FORM, (FIVE_OF_SIX, ""), NULL, (Some(Failing::Read(InPort::Settings, 2)), 100, u32::MAX), FAULT),
    (FORM, (FIVE_OF_SIX, ""), File::Unsynced(1, 0), FREE, (4, "hp packet 1\n", 244, 654_973_374)),
    (
        FORM,
        (FIVE_OF_SIX, ""),
        File::Nulls(2, 0),
        (Some(Failing::Read(InPort::Hp, 2)), 100, u32::MAX),
        (5, "read fault\n", 244, 654_973_374),
    ),
    (FORM, (SEVEN_OF_EIGHT, ""), File::Nulls(2, 0), (None, 1, 100), (8, "limit 1\n", 233, 612_474_215)),
];

// Missing files, failed calls, rejected packets, and the limit: a partial byte is written only at status 0.
#[test]
fn faults_and_part_bytes(rt: HostRuntime) -> Result<(), Fail> {
    assert_eq!(rt; first_wrong(&rt, rt.alloc(), &FAULTS)?, None);
    Ok(())
}

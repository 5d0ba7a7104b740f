// The command `disperse`. The expected bytes are those of an independent program.
use super::coded::{Case, Part, first_wrong, parts_of};
use dvbt_top::Limits;
use station_core::{Failing, InPort, OutPort};
use std::test::Fail;
use test_runs::{BASE, File};

const FORM: &str = "disperse a out";

/// Nine dispersed null packets: their first bytes, the second one's sync byte, and the start of the ninth.
static PARTS: [Part; 3] = [
    (
        0,
        &[
            0xB8, 0x1C, 0x09, 0x18, 0xCB, 0xCF, 0x47, 0x5C, 0x6C, 0x36, 0x97, 0x48, 0x8C,
        ],
    ),
    (188, &[0x47]),
    (1504, &[0xB8, 0x1C, 0x09, 0x18]),
];

#[test]
fn nine_null_packets(rt: HostRuntime) -> Result<(), Fail> {
    let left = parts_of(&rt, rt.alloc(), (FORM, 9), "hp packets 9 tail 0\n", &PARTS)?;
    assert_eq!(rt; left, (0, 1692, true, None));
    Ok(())
}

/// Two null packets, and five bytes of one more.
const PART: File = File::Nulls(2, 5);

static CASES: [Case; 11] = [
    (
        "receive",
        (BASE, ""),
        PART,
        (None, 9, 100),
        (2, "usage\n", 0, 0),
    ),
    ("", (BASE, ""), PART, (None, 9, 100), (2, "usage\n", 0, 0)),
    (
        FORM,
        (BASE, ""),
        File::Nulls(3, 0),
        (None, 2, 100),
        (8, "limit 2\n", 376, 1_095_916_316),
    ),
    (
        FORM,
        (BASE, ""),
        File::Nulls(2, 0),
        (None, 2, 100),
        (0, "hp packets 2 tail 0\n", 376, 1_095_916_316),
    ),
    (
        FORM,
        (BASE, ""),
        PART,
        (None, 2, 100),
        (0, "hp packets 2 tail 5\n", 376, 1_095_916_316),
    ),
    (
        FORM,
        (BASE, ""),
        File::Unsynced(1, 1),
        (None, 9, 100),
        (4, "hp packet 1\n", 188, 3_363_878_293),
    ),
    // an output that fails to close after a refusal
    (
        FORM,
        (BASE, ""),
        File::Unsynced(1, 1),
        (Some(Failing::Close(OutPort::Bytes, 1)), 9, 100),
        (4, "hp packet 1\n", 188, 3_363_878_293),
    ),
    (
        "disperse gone out",
        (BASE, ""),
        PART,
        (None, 9, 100),
        (5, "read fault\n", 0, 0),
    ),
    (
        FORM,
        (BASE, ""),
        PART,
        (Some(Failing::Read(InPort::Hp, 3)), 9, 100),
        (5, "read fault\n", 188, 3_363_878_293),
    ),
    (
        FORM,
        (BASE, ""),
        File::Nulls(3, 0),
        (Some(Failing::Write(OutPort::Bytes, 1)), 9, 100),
        (6, "write fault\n", 94, 932_024_371),
    ),
    (
        FORM,
        (BASE, ""),
        PART,
        (Some(Failing::Close(OutPort::Bytes, 1)), 9, 100),
        (6, "hp packets 2 tail 5\nwrite fault\n", 376, 1_095_916_316),
    ),
];

// Invalid command lines, refusals, limits and faults: the output is a prefix of the dispersed packets in each.
#[test]
fn refusals_and_limits(rt: HostRuntime) -> Result<(), Fail> {
    assert_eq!(rt; first_wrong(&rt, rt.alloc(), &CASES)?, None);
    Ok(())
}

// The program takes a hundred million packets from a transport file.
#[test]
fn shipped_limits(rt: HostRuntime) {
    assert_eq!(rt; Limits::shipped().packets, 100_000_000);
}

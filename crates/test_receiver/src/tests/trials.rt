// Trials against those of the independent reference, a plain Rust program.
ghost use Rattle.std.specs.Prelude.{◌≡◌};

use mode_set::{Carriers, Mode, Mode2k, Mode8k, Settings};
use std::alloc::{AllocError, Global};
use std::process::Abort;
use std::rt::HostRuntime;
use std::thread::Threads;
use trial::{StreamReturn, Trial, TrialCounts};
use word_workers::OpenGate;

// The counts, if the trial has super-frames.
fn counts_of<M: Carriers, R: Threads + Sync>(
    rt: &R,
    alloc: Global,
    settings: &Settings,
    number: u32,
) -> Result<Option<TrialCounts>, AllocError>
    requires { settings.now.mode ≡ M.MODE }
{
    let trial = Trial::<M>::new(alloc, settings, number)?;
    match trial.super_frames() {
        Some(frames) if frames < 1000 => Ok(Some(trial.run(rt, &OpenGate, frames))),
        _ => Ok(None),
    }
}

fn check<R: Abort + Threads + Sync>(
    rt: &R,
    alloc: Global,
    document: &[u8],
    number: u32,
    expected: TrialCounts,
) {
    let settings = Settings::read(alloc, document).expect(rt, "the settings");
    let found = match settings.mode {
        Mode::M2k => counts_of::<Mode2k, R>(rt, alloc, &settings, number),
        Mode::M8k => counts_of::<Mode8k, R>(rt, alloc, &settings, number),
    };
    assert!(rt; found.expect(rt, "memory") == Some(expected));
}

fn returned(packets: u32, back: u64, sum: u32) -> StreamReturn {
    StreamReturn { packets, back, sum }
}

#[test]
fn number_seven_of_one_stream(rt: HostRuntime) {
    check(
        &rt,
        rt.alloc(),
        b"mode = \"2k\"\nconstellation = \"qpsk\"\nrate_hp = \"1/2\"\nguard = \"1/32\"\n",
        7,
        TrialCounts {
            cells: 227682593,
            hp: returned(150, 241, 7666638),
            lp: None,
        },
    );
}

#[test]
fn number_seven_of_two_streams(rt: HostRuntime) {
    check(
        &rt,
        rt.alloc(),
        b"mode = \"2k\"\nconstellation = \"16qam\"\nhierarchy = \"2\"\nrate_hp = \"1/2\"\nrate_lp = \"3/4\"\nguard = \"1/32\"\n",
        7,
        TrialCounts {
            cells: 227883196,
            hp: returned(150, 241, 7669072),
            lp: Some(returned(146, 367, 13935564)),
        },
    );
}

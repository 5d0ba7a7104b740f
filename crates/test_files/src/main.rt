//! Every command on files. Packets are modulated and received in both modes, in each constellation, with a hierarchy
//! and with a plan; transmissions are tuned in to and aligned. Cells with noise and weights are received, rescued,
//! equalised, tracked and measured; packets are dispersed and coded, and old cells upgraded; a trial runs. One of the
//! files has a packet that is rejected.
//!
//! Each run has a station of its own. It prints its report and its status, and then the content of each file that it
//! wrote, as the system reads it. The expected output, in the file `stdout`, was made by the independent reference.
#![tactic(auto)]

use dvbt_top::run;
use station_files::{Buffers, FileStation};
use std::rt::Files;
use std::thread::Threads;
use std::{fs, io};
use test_runs::{checksum, noisy};

/// A command, and the files that it writes.
type Run = (&'static str, &'static [&'static str]);

/// One stream on QPSK: packets and back again, once whole and once with a rejected packet in the middle.
static PLAIN: [Run; 4] = [
    (
        "modulate settings.toml packets.ts packets.cells",
        &["packets.cells"],
    ),
    (
        "receive settings.toml packets.cells received.ts",
        &["received.ts"],
    ),
    (
        "modulate settings.toml refused.ts refused.cells",
        &["refused.cells"],
    ),
    (
        "receive settings.toml refused.cells front.ts",
        &["front.ts"],
    ),
];

/// Two streams on 64-QAM in the 8K mode, up to a limit of symbols.
static WIDE: [Run; 2] = [
    (
        "modulate wide.toml packets.ts received.ts wide.cells",
        &["wide.cells"],
    ),
    (
        "receive wide.toml wide.cells hp.ts lp.ts",
        &["hp.ts", "lp.ts"],
    ),
];

/// One stream on QPSK, and on 16-QAM from its second super-frame on, up to a limit of symbols. The announced parameters
/// suffice to receive it from there on.
static PLANNED: [Run; 4] = [
    (
        "modulate planned.toml lp.ts planned.cells",
        &["planned.cells"],
    ),
    (
        "receive planned.toml planned.cells planned.ts",
        &["planned.ts"],
    ),
    ("tune settings.toml planned.cells tuned.ts", &["tuned.ts"]),
    (
        "align settings.toml planned.cells aligned.cells",
        &["aligned.cells"],
    ),
];

/// Its cells with noise and weights.
static NOISY: [Run; 7] = [
    ("receive planned.toml noisy.cells noisy.ts", &["noisy.ts"]),
    (
        "rescue planned.toml noisy.cells rescued.ts",
        &["rescued.ts"],
    ),
    (
        "equalise planned.toml noisy.cells equalised.cells",
        &["equalised.cells"],
    ),
    (
        "receive planned.toml equalised.cells equalised.ts",
        &["equalised.ts"],
    ),
    (
        "track planned.toml noisy.cells tracked.cells",
        &["tracked.cells"],
    ),
    (
        "receive planned.toml tracked.cells tracked.ts",
        &["tracked.ts"],
    ),
    ("measure planned.toml noisy.cells", &[]),
];

/// The other commands.
static OTHERS: [Run; 5] = [
    ("disperse packets.ts dispersed", &["dispersed"]),
    ("outer packets.ts words", &["words"]),
    ("inner planned.toml packets.ts bits", &["bits"]),
    (
        "upgrade settings.toml packets.ts upgraded.cells",
        &["upgraded.cells"],
    ),
    ("trial settings.toml 7", &[]),
];

// Runs the command with these arguments, and prints its status.
fn run_command<R: Threads + Files + Print + AllocGlobal + Sync>(
    rt: &R,
    command: &str,
) -> io::Result<()> {
    let mut words = Vec::new(rt.alloc());
    for word in command.split_whitespace() {
        words.push(String::from_str(rt.alloc(), word)?)?;
    }
    let mut station = FileStation::with_buffers(rt, Buffers::new(rt.alloc())?);
    let status = run(rt, rt.alloc(), &words, &mut station);
    println!(rt; "{command}: status {status}")
}

// Prints the length of a file, and its sum.
fn show_file<R: Files + Print + AllocGlobal>(rt: &R, name: &str) -> io::Result<()> {
    let bytes = fs::read(rt, name)?;
    println!(rt; "{name}: {} bytes, sum {}", bytes.len(), checksum(&bytes))
}

// Runs a command, and prints the content of its files.
fn show_run<R: Threads + Files + Print + AllocGlobal + Sync>(
    rt: &R,
    command: &str,
    files: &[&str],
) -> io::Result<()> {
    run_command(rt, command)?;
    for name in files {
        show_file(rt, *name)?;
    }
    Ok(())
}

// The same for each run of a table.
fn show_runs<R: Threads + Files + Print + AllocGlobal + Sync>(
    rt: &R,
    runs: &[Run],
) -> io::Result<()> {
    for (command, files) in runs {
        show_run(rt, *command, *files)?;
    }
    Ok(())
}

// Gives the cells of a file weights from 0 to 18; those above 15 count as 15.
fn weigh(file: &mut [u8]) {
    let mut weight = 0u8;
    for (place, byte) in file.iter_mut().enumerate() {
        if place >= 8 && (place - 8) % 5 == 4 {
            *byte = weight;
            weight = weight.wrapping_add(7) % 19;
        }
    }
}

// Creates a file of cells from another one, with noise and weights.
fn disturb<R: Files + AllocGlobal>(rt: &R, from: &str, to: &str) -> io::Result<()> {
    let cells = fs::read(rt, from)?;
    let mut bytes = noisy(rt.alloc(), &cells, 5_600)?;
    weigh(&mut bytes);
    fs::write(rt, to, bytes)
}

fn main(rt: HostRuntime) -> io::Result<()> {
    show_runs(&rt, PLAIN.as_slice())?;
    show_runs(&rt, WIDE.as_slice())?;
    show_runs(&rt, PLANNED.as_slice())?;
    disturb(&rt, "planned.cells", "noisy.cells")?;
    show_runs(&rt, NOISY.as_slice())?;
    show_runs(&rt, OTHERS.as_slice())
}

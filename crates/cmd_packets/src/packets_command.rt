// A whole run of a command that codes the packets of HP.
ghost use Rattle.std.specs.Prelude.{◌≡◌, [], true};
ghost use Rattle.cmd_base.specs.Causes.{HasEndCause};
ghost use Rattle.cmd_base.specs.Packets.{AcceptsFirst, whole_packets};
ghost use Rattle.cmd_packets.specs.Steps.{IsReady, AsksPorts, Ran, RunsCoding};

use crate::coder::Coder;
use crate::coding::{code_packets, write_end};
use crate::steps::{close_refused, finish, open};
use cmd_base::{Counts, Limits, Refusal, refuse};
use station_core::Station;

// From opening the ports to closing them.
fn code_all<'a, C: Coder, S: Station<'a>>(
    input: &'a str,
    output: &'a str,
    limits: &Limits,
    coder: &mut C,
    station: &mut S,
) -> Result<Counts, Refusal>
    requires ready { IsReady (S.meaning station.old) }
    requires new { C.took coder.old [] }
    requires empty { C.coded coder.old [] ≡ [] }
    ensures asks { AsksPorts input.now output.now (S.meaning station.old) (S.meaning station.new) }
    ensures cause { HasEndCause ((S.meaning station.old).tells ≡ true
        → AcceptsFirst limits.now.packets ((S.meaning station.old).file input.now)
        (whole_packets ((S.meaning station.old).file input.now))) (S.meaning station.old) (S.meaning station.new)
        result }
    ensures ran { Ran (C.coded coder.old) (C.ended coder.old) limits.now.packets input.now (S.meaning station.old)
        (S.meaning station.new) result }
{
    open(input, output, station)?;
    match code_packets(limits, coder, station) {
        Ok(counts) => match write_end(coder, station) {
            Ok(()) => finish(counts, station),
            Err(fault) => Err(close_refused(fault, station)),
        },
        Err(refusal) => Err(close_refused(refusal, station)),
    }
}

/// Runs a command that codes the packets of HP with this coder, and returns its status.
pub fn run_coding<'a, C: Coder, S: Station<'a>>(
    input: &'a str,
    output: &'a str,
    limits: &Limits,
    coder: &mut C,
    station: &mut S,
) -> u8
    requires ready { IsReady (S.meaning station.old) }
    requires new { C.took coder.old [] }
    requires empty { C.coded coder.old [] ≡ [] }
    ensures runs { RunsCoding (C.coded coder.old) (C.ended coder.old) limits.now.packets input.now output.now
        (S.meaning station.old) (S.meaning station.new) result }
{
    match code_all(input, output, limits, coder, station) {
        Ok(_) => 0,
        Err(refusal) => refuse(&refusal, station),
    }
}

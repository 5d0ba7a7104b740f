// The commands, each with the promise of the whole run.
ghost use Rattle.station_core.specs.Meaning.{IsFresh};
ghost use Rattle.cmd_base.specs.Run.{Run};
ghost use Rattle.cmd_packets.specs.Commands.{disperse_command, outer_command, inner_command};

use crate::disperser::Disperser;
use crate::inner_coder::InnerCoder;
use crate::outer_coder::OuterCoder;
use crate::packets_command::run_coding;
use cmd_base::{Limits, Refusal, read_settings, refuse};
use outer_chain::OuterTx;
use outer_chain::laws::sending;
use puncture::{sent_bits_are_runs, steps_are_numbered, steps_send_in_order};
use station_core::Station;
use std::alloc::Global;

/// Runs `disperse TS OUT` and returns its status.
pub fn disperse<'a, S: Station<'a>>(
    input: &'a str,
    output: &'a str,
    limits: &Limits,
    station: &mut S,
) -> u8
    requires fresh { IsFresh (S.meaning station.old) }
    ensures { Run (disperse_command input.now output.now) limits.now.packets (S.meaning station.old)
        (S.meaning station.new) result }
{
    run_coding(input, output, limits, &mut Disperser::start(), station)
}

/// Runs `outer TS OUT` and returns its status. All its memory is allocated before a port is requested.
pub fn outer<'a, S: Station<'a>>(
    alloc: Global,
    input: &'a str,
    output: &'a str,
    limits: &Limits,
    station: &mut S,
) -> u8
    requires fresh { IsFresh (S.meaning station.old) }
    ensures { Run (outer_command input.now output.now) limits.now.packets (S.meaning station.old)
        (S.meaning station.new) result }
{
    sending();
    match OuterTx::new(alloc) {
        Ok(tx) => run_coding(input, output, limits, &mut OuterCoder::new(tx), station),
        Err(_) => refuse(&Refusal::Memory, station),
    }
}

/// Runs `inner SETTINGS TS OUT` and returns its status. The settings are read and checked, and then all memory is
/// allocated, before another port is requested.
pub fn inner<'a, S: Station<'a>>(
    alloc: Global,
    settings: &'a str,
    input: &'a str,
    output: &'a str,
    limits: &Limits,
    station: &mut S,
) -> u8
    requires fresh { IsFresh (S.meaning station.old) }
    ensures { Run (inner_command settings.now input.now output.now) limits.now.packets (S.meaning station.old)
        (S.meaning station.new) result }
{
    sending();
    steps_send_in_order();
    steps_are_numbered();
    sent_bits_are_runs();
    match read_settings(alloc, settings, station) {
        Ok(read) => match OuterTx::new(alloc) {
            Ok(tx) => {
                let mut coder = InnerCoder::new(tx, read.rate_hp);
                run_coding(input, output, limits, &mut coder, station)
            }
            Err(_) => refuse(&Refusal::Memory, station),
        },
        Err(refusal) => refuse(&refusal, station),
    }
}

// The closing lines of a trial.
ghost use Rattle.std.specs.Prelude.{◌≡◌, ◌<◌, ◌++◌, length, true, false};
ghost use Rattle.mode_set.specs.declared.modes.Stream.TheVariants.{Hp};
ghost use Rattle.cmd_trial.specs.TrialCommand.{cells_line, lp_return_line, return_line, trial_lines};
ghost use Rattle.cmd_base.specs.Causes.{HasCause};
ghost use Rattle.cmd_base.specs.Lines.{IsWriting, WritesLines};

use cmd_base::{Refusal, write_line};
use mode_set::Stream;
use rx_report::{Line, name_of, push_count};
use station_core::Station;
use trial::{StreamReturn, TrialCounts};

// The closing line for the cells fed in a trial.
fn cells_line_of(counts: &TrialCounts) -> Line
    ensures text { result.bytes ≡ cells_line counts.now }
    ensures some { 0 < length result.bytes }
{
    let mut line = Line::new();
    push_count(&mut line, "cells ", u64::from(counts.cells));
    line.push_str("\n");
    line
}

// The closing line for the packets of a stream in a trial.
fn return_line_of(stream: Stream, counts: &StreamReturn) -> Line
    ensures text { result.bytes ≡ return_line stream counts.now }
    ensures some { 0 < length result.bytes }
{
    let mut line = Line::new();
    line.push_str(name_of(stream));
    push_count(&mut line, " packets ", u64::from(counts.packets));
    push_count(&mut line, " back ", counts.back);
    push_count(&mut line, " sum ", u64::from(counts.sum));
    line.push_str("\n");
    line
}

// Writes the line of LP, if there is LP.
fn write_lp<'a, S: Station<'a>>(lp: &Option<StreamReturn>, station: &mut S) -> Result<(), Refusal>
    requires created { (S.meaning station.old).report.created ≡ true }
    requires report_open { (S.meaning station.old).report.closed ≡ false }
    ensures cause { HasCause (S.meaning station.old) (S.meaning station.new) result }
    ensures kind { IsWriting result }
    ensures writes { WritesLines (lp_return_line lp.now) (S.meaning station.old) (S.meaning station.new) result }
{
    match lp {
        Some(returned) => write_line(&return_line_of(Stream::Lp, returned), station),
        None => Ok(()),
    }
}

// Writes the lines of the streams.
fn write_streams<'a, S: Station<'a>>(counts: &TrialCounts, station: &mut S) -> Result<(), Refusal>
    requires created { (S.meaning station.old).report.created ≡ true }
    requires report_open { (S.meaning station.old).report.closed ≡ false }
    ensures cause { HasCause (S.meaning station.old) (S.meaning station.new) result }
    ensures kind { IsWriting result }
    ensures writes { WritesLines (return_line Hp counts.now.hp ++ lp_return_line counts.now.lp) (S.meaning station.old)
        (S.meaning station.new) result }
{
    write_line(&return_line_of(Stream::Hp, &counts.hp), station)?;
    write_lp(&counts.lp, station)
}

/// Writes the closing lines of a trial, one write for each.
pub(crate) fn write_lines<'a, S: Station<'a>>(
    counts: &TrialCounts,
    station: &mut S,
) -> Result<(), Refusal>
    requires created { (S.meaning station.old).report.created ≡ true }
    requires report_open { (S.meaning station.old).report.closed ≡ false }
    ensures cause { HasCause (S.meaning station.old) (S.meaning station.new) result }
    ensures kind { IsWriting result }
    ensures writes { WritesLines (trial_lines counts.now) (S.meaning station.old) (S.meaning station.new) result }
{
    write_line(&cells_line_of(counts), station)?;
    write_streams(counts, station)
}

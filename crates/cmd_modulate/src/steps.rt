// The steps of a run: the ports are opened, and closed after the work.
ghost use Rattle.std.specs.Prelude.{◌≡◌, ◌≤◌, [], true, false, None, OnErr, if◌then◌else◌};
ghost use Rattle.mode_set.specs.declared.modes.Stream.TheVariants.{Lp};
ghost use Rattle.std.specs.Option.{option_copied};
ghost use Rattle.station_core.specs.Causes.{Rose};
ghost use Rattle.cmd_base.specs.Packets.{packets_line};
ghost use Rattle.cmd_base.specs.Causes.{HasCause, HasEndCause};
ghost use Rattle.cmd_base.specs.Lines.{IsWriting, WritesLines};
ghost use Rattle.cmd_modulate.specs.ModulateCommand.{transmission_lines};
ghost use Rattle.cmd_modulate.specs.Reporting.{Finishes, IsFinish};
ghost use Rattle.cmd_modulate.specs.Steps.{ClosesOutput, ClosesRefused, OpensAll, OpensLp};

use crate::counts::{TransmissionCounts, super_frames_line_of};
use cmd_base::{Counts, Refusal, packets_line_of, settle, write_line};
use mode_set::Stream;
use station_core::{Failed, InPort, OutPort, Station};

// Opens the file of LP for reading, if there is one.
fn open_lp<'a, S: Station<'a>>(lp: Option<&'a str>, station: &mut S) -> Result<(), Failed>
    requires { (S.meaning station.old).lp.asked ≡ None }
    ensures opened { OpensLp (option_copied lp.entry) (S.meaning station.old) (S.meaning station.new) result }
    ensures cause { OnErr result (Rose (S.meaning station.old).read_faults (S.meaning station.new).read_faults) }
    ensures later { (S.meaning station.old).read_faults ≤ (S.meaning station.new).read_faults }
{
    match lp {
        Some(name) => station.attach(InPort::Lp, name),
        None => Ok(()),
    }
}

/// Opens HP for reading, then LP, and then creates the output.
pub(crate) fn open<'a, S: Station<'a>>(
    hp: &'a str,
    lp: Option<&'a str>,
    cells: &'a str,
    station: &mut S,
) -> Result<(), Refusal>
    requires hp { (S.meaning station.old).hp.asked ≡ None }
    requires lp { (S.meaning station.old).lp.asked ≡ None }
    requires cells { (S.meaning station.old).cells_out.asked ≡ None }
    ensures cause { HasCause (S.meaning station.old) (S.meaning station.new) result }
    ensures opened { OpensAll hp.now (option_copied lp.entry) cells.now (S.meaning station.old) (S.meaning station.new)
        result }
{
    if station.attach(InPort::Hp, hp).is_err() {
        return Err(Refusal::ReadFault);
    }
    if open_lp(lp, station).is_err() {
        return Err(Refusal::ReadFault);
    }
    if station.create(OutPort::Cells, cells).is_err() {
        return Err(Refusal::WriteFault);
    }
    Ok(())
}

// Writes the closing line of LP, if there is LP.
fn write_lp<'a, S: Station<'a>>(two: bool, lp: &Counts, station: &mut S) -> Result<(), Refusal>
    requires created { (S.meaning station.old).report.created ≡ true }
    requires report_open { (S.meaning station.old).report.closed ≡ false }
    ensures cause { HasCause (S.meaning station.old) (S.meaning station.new) result }
    ensures kind { IsWriting result }
    ensures writes { WritesLines (if two then packets_line Lp lp.now else []) (S.meaning station.old)
        (S.meaning station.new) result }
{
    if two {
        write_line(&packets_line_of(Stream::Lp, lp), station)
    } else {
        Ok(())
    }
}

// Writes the closing lines.
fn write_lines<'a, S: Station<'a>>(
    two: bool,
    counts: &TransmissionCounts,
    station: &mut S,
) -> Result<(), Refusal>
    requires created { (S.meaning station.old).report.created ≡ true }
    requires report_open { (S.meaning station.old).report.closed ≡ false }
    ensures cause { HasCause (S.meaning station.old) (S.meaning station.new) result }
    ensures kind { IsWriting result }
    ensures writes { WritesLines (transmission_lines two counts.now) (S.meaning station.old) (S.meaning station.new)
        result }
{
    write_line(&packets_line_of(Stream::Hp, &counts.hp), station)?;
    write_lp(two, &counts.lp, station)?;
    write_line(&super_frames_line_of(counts.super_frames), station)
}

/// Writes the closing lines and closes the output, even if a line was not written.
pub(crate) fn finish<'a, S: Station<'a>>(
    two: bool,
    counts: TransmissionCounts,
    station: &mut S,
) -> Result<TransmissionCounts, Refusal>
    requires report { (S.meaning station.old).report.created ≡ true }
    requires report_open { (S.meaning station.old).report.closed ≡ false }
    requires cells { (S.meaning station.old).cells_out.created ≡ true }
    requires cells_open { (S.meaning station.old).cells_out.closed ≡ false }
    ensures cause { HasEndCause (Unit {0}) (S.meaning station.old) (S.meaning station.new) result }
    ensures kind { IsFinish counts result }
    ensures finished { Finishes two counts (S.meaning station.old) (S.meaning station.new) result }
{
    match write_lines(two, &counts, station) {
        Ok(()) => match station.close(OutPort::Cells) {
            Ok(()) => Ok(counts),
            Err(_) => Err(Refusal::WriteFault),
        },
        Err(refusal) => {
            let _ = station.close(OutPort::Cells);
            Err(refusal)
        }
    }
}

// Closes the output. The result changes neither status nor text.
fn close_output<'a, S: Station<'a>>(station: &mut S)
    requires cells { (S.meaning station.old).cells_out.created ≡ true }
    requires cells_open { (S.meaning station.old).cells_out.closed ≡ false }
    ensures closed { ClosesOutput (S.meaning station.old) (S.meaning station.new) }
{
    let _ = station.close(OutPort::Cells);
}

/// Flushes the output after a refusal, and closes it. A failed flush makes it a write fault.
pub(crate) fn close_refused<'a, S: Station<'a>>(refusal: Refusal, station: &mut S) -> Refusal
    requires cells { (S.meaning station.old).cells_out.created ≡ true }
    requires cells_open { (S.meaning station.old).cells_out.closed ≡ false }
    ensures closed { ClosesRefused refusal (S.meaning station.old) (S.meaning station.new) result }
{
    let settled = settle(refusal, station);
    close_output(station);
    settled
}

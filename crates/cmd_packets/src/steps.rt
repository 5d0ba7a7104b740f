// The steps of a run: the ports are opened, and closed after the work.
ghost use Rattle.std.specs.Prelude.{◌≡◌, ◌⊎◌, ◌++◌, true, false, None, OnErr};
ghost use Rattle.cmd_base.specs.Causes.{HasCause, HasEndCause};
ghost use Rattle.station_core.specs.Causes.{Rose};
ghost use Rattle.cmd_base.specs.Packets.{closing_line};
ghost use Rattle.cmd_packets.specs.Steps.{OpensAll, Finishes, ClosesOutput, ClosesRefused};

use cmd_base::{Counts, Refusal, closing_line_of, settle};
use station_core::{InPort, OutPort, Station};

/// Opens HP for reading, and then creates the output.
pub fn open<'a, S: Station<'a>>(
    input: &'a str,
    output: &'a str,
    station: &mut S,
) -> Result<(), Refusal>
    requires hp { (S.meaning station.old).hp.asked ≡ None }
    requires bytes { (S.meaning station.old).bytes_out.asked ≡ None }
    ensures cause { HasCause (S.meaning station.old) (S.meaning station.new) result }
    ensures opened { OpensAll input.now output.now (S.meaning station.old) (S.meaning station.new) result }
{
    if station.attach(InPort::Hp, input).is_err() {
        return Err(Refusal::ReadFault);
    }
    match station.create(OutPort::Bytes, output) {
        Ok(()) => Ok(()),
        Err(_) => Err(Refusal::WriteFault),
    }
}

/// Writes the closing line and then closes the output, even if the line was not written.
pub fn finish<'a, S: Station<'a>>(counts: Counts, station: &mut S) -> Result<Counts, Refusal>
    requires report { (S.meaning station.old).report.created ≡ true }
    requires report_open { (S.meaning station.old).report.closed ≡ false }
    requires bytes { (S.meaning station.old).bytes_out.created ≡ true }
    requires bytes_open { (S.meaning station.old).bytes_out.closed ≡ false }
    ensures cause { HasEndCause (Unit {0}) (S.meaning station.old) (S.meaning station.new) result }
    ensures finished { Finishes counts (S.meaning station.old) (S.meaning station.new) result }
    ensures line { (S.meaning station.old).tells ≡ true → OnErr result (Rose (S.meaning station.old).report_faults
        (S.meaning station.new).report_faults
        ⊎ ((S.meaning station.new).report.written ≡ (S.meaning station.old).report.written ++ closing_line counts)) }
{
    let line = closing_line_of(&counts);
    match station.write(OutPort::Report, line.as_str().as_bytes()) {
        Ok(()) => match station.close(OutPort::Bytes) {
            Ok(()) => Ok(counts),
            Err(_) => Err(Refusal::WriteFault),
        },
        Err(_) => {
            let _ = station.close(OutPort::Bytes);
            Err(Refusal::WriteFault)
        }
    }
}

// Closes the output. The result changes neither status nor text.
fn close_output<'a, S: Station<'a>>(station: &mut S)
    requires bytes { (S.meaning station.old).bytes_out.created ≡ true }
    requires bytes_open { (S.meaning station.old).bytes_out.closed ≡ false }
    ensures closed { ClosesOutput (S.meaning station.old) (S.meaning station.new) }
{
    let _ = station.close(OutPort::Bytes);
}

/// Flushes the output after a refusal, and closes it. A failed flush makes it a write fault.
pub fn close_refused<'a, S: Station<'a>>(refusal: Refusal, station: &mut S) -> Refusal
    requires bytes { (S.meaning station.old).bytes_out.created ≡ true }
    requires bytes_open { (S.meaning station.old).bytes_out.closed ≡ false }
    ensures closed { ClosesRefused refusal (S.meaning station.old) (S.meaning station.new) result }
{
    let settled = settle(refusal, station);
    close_output(station);
    settled
}

// A write of the work.
ghost use Rattle.std.specs.Prelude.{◌≡◌, ◌≤◌, true, false};
ghost use Rattle.station_core.specs.Meaning.{sink_at};
ghost use Rattle.cmd_cells.specs.Stops.{HasCause};
ghost use Rattle.cmd_cells.specs.Outputs.{IsWriting};
ghost use Rattle.cmd_cells.specs.Writing.{WritesAt};

use crate::run_error::RunError;
use station_core::{OutPort, Station};

/// Writes the bytes at the port in one write, if there are any. It stops only if that failed.
pub fn write_some<'a, S: Station<'a>>(
    port: OutPort,
    bytes: &[u8],
    station: &mut S,
) -> Result<(), RunError>
    requires created { (sink_at port (S.meaning station.old)).created ≡ true }
    requires open { (sink_at port (S.meaning station.old)).closed ≡ false }
    ensures kind { IsWriting result }
    ensures cause { HasCause (S.meaning station.old) (S.meaning station.new) result }
    ensures later_report { (S.meaning station.old).report_faults ≤ (S.meaning station.new).report_faults }
    ensures writes { WritesAt port bytes.now (S.meaning station.old) (S.meaning station.new) result }
{
    if bytes.is_empty() {
        return Ok(());
    }
    match station.write(port, bytes) {
        Ok(()) => Ok(()),
        Err(_) => Err(RunError::WriteFault),
    }
}

// A line of the report.
ghost use Rattle.std.specs.Prelude.{◌≡◌, ◌<◌, length, true, false};
ghost use Rattle.cmd_base.specs.Causes.{HasCause};
ghost use Rattle.cmd_base.specs.Lines.{IsWriting, WritesLines};

use crate::{Line, Refusal};
use station_core::{OutPort, Station};

/// Writes a line to Report, in one write. The only refusal is that it failed.
pub fn write_line<'a, S: Station<'a>>(line: &Line, station: &mut S) -> Result<(), Refusal>
    requires some { 0 < length line.now.bytes }
    requires created { (S.meaning station.old).report.created ≡ true }
    requires report_open { (S.meaning station.old).report.closed ≡ false }
    ensures cause { HasCause (S.meaning station.old) (S.meaning station.new) result }
    ensures kind { IsWriting result }
    ensures writes { WritesLines line.now.bytes (S.meaning station.old) (S.meaning station.new) result }
{
    match station.write(OutPort::Report, line.as_str().as_bytes()) {
        Ok(()) => Ok(()),
        Err(_) => Err(Refusal::WriteFault),
    }
}

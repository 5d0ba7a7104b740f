// Writing the lines of a measurer.
ghost use Rattle.std.specs.Prelude.{IsTrue};
ghost use Rattle.std.specs.List.{concat};
ghost use Rattle.cmd_receive.specs.Writing.{Appends, IsPrinting, OnlyPrints};
ghost use Rattle.cmd_measure.specs.Working.{texts};

use cmd_cells::{RunError, write_some};
use measure_report::Line;
use station_core::{OutPort, Station};

/// Writes lines to Report, one write for each.
pub(crate) fn write_lines<'a, S: Station<'a>>(
    lines: &[Line],
    station: &mut S,
) -> Result<(), RunError>
    requires printing { IsPrinting (S.meaning station.old) }
    ensures prints { OnlyPrints (S.meaning station.old) (S.meaning station.new) result }
    ensures written { IsTrue (S.meaning station.old).tells → Appends (concat (texts lines.now))
        (S.meaning station.old).report.written (S.meaning station.new).report.written result }
{
    for line in lines {
        write_some(OutPort::Report, line.as_str().as_bytes(), station)?;
    }
    Ok(())
}

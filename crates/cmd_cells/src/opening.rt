// Opening a file of cells, up to its first symbol.
ghost use Rattle.std.specs.Prelude.{◌≡◌, true};
ghost use Rattle.station_core.specs.Meaning.{IsUnasked};
ghost use Rattle.cmd_cells.specs.Opening.{Opens, ReadsHeader};

use cmd_base::{CellsRefusal, Refusal, fill};
use station_core::{InPort, Station};

// Reads the header, if the cells must have one. Each read requests the bytes still missing.
fn read_header<'a, S: Station<'a>>(header: Option<[u8; 8]>, station: &mut S) -> Result<(), Refusal>
    requires attached { (S.meaning station.old).cells.attached ≡ true }
    ensures reads { ReadsHeader header (S.meaning station.old) (S.meaning station.new) result }
{
    let Some(header) = header else {
        return Ok(());
    };
    let mut first = [0u8; 8];
    let Ok(filled) = fill(station, InPort::Cells, &mut first) else {
        return Err(Refusal::ReadFault);
    };
    if filled < first.len() {
        return Err(Refusal::Cells(CellsRefusal::Header));
    }
    if first == header {
        Ok(())
    } else {
        Err(Refusal::Cells(CellsRefusal::Header))
    }
}

/// Opens the file of cells of this name and reads its header, if it must have one.
pub(crate) fn open_cells<'a, S: Station<'a>>(
    cells: &'a str,
    header: Option<[u8; 8]>,
    station: &mut S,
) -> Result<(), Refusal>
    requires unasked { IsUnasked (S.meaning station.old).cells }
    ensures opens { Opens cells.now header (S.meaning station.old) (S.meaning station.new) result }
{
    match station.attach(InPort::Cells, cells) {
        Ok(()) => read_header(header, station),
        Err(_) => Err(Refusal::ReadFault),
    }
}

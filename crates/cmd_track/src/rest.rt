// The symbols that a tracker has not given when the file ends.
ghost use Rattle.std.specs.Prelude.{◌≡◌, ◌≤◌, ◌*◌, ℕ, List, IsTrue, true, false, vec_capacity};
ghost use Rattle.tracking.specs.Tracking.{Symbol};
ghost use Rattle.tracker.specs.Tracks.{Tracks};
ghost use Rattle.cmd_cells.specs.Outputs.{IsWriting};
ghost use Rattle.cmd_cells.specs.Stops.{HasCause};
ghost use Rattle.cmd_track.specs.Working.{Appends, CellsOnly, symbols_from};

use cmd_cells::{RunError, write_some};
use mode_set::Carriers;
use station_core::{OutPort, Station};
use tracker::Tracker;

/// Writes the symbols not given yet, one write for each. The file has ended, and `room` holds a symbol.
pub(crate) fn write_rest<'a, M: Carriers, S: Station<'a>>(
    tracker: &mut Tracker<M>,
    room: &mut Vec<u8>,
    station: &mut S,
) -> Result<(), RunError>
    requires ended { tracker.old.ended ≡ true }
    requires room { 5 * M.K ≤ vec_capacity room.old }
    requires created { (S.meaning station.old).cells_out.created ≡ true }
    requires open { (S.meaning station.old).cells_out.closed ≡ false }
    ensures kind { IsWriting result }
    ensures cause { HasCause (S.meaning station.old) (S.meaning station.new) result }
    ensures later_report { (S.meaning station.old).report_faults ≤ (S.meaning station.new).report_faults }
    ensures others { CellsOnly (S.meaning station.old) (S.meaning station.new) }
    ensures written { IsTrue (S.meaning station.old).tells → (symbols : List Symbol) → Tracks tracker.old symbols
        → Appends (symbols_from tracker.old.settings symbols tracker.old.given)
        (S.meaning station.old).cells_out.written (S.meaning station.new).cells_out.written result }
{
    room.clear();
    while tracker.rest(room) {
        write_some(OutPort::Cells, room, station)?;
        room.clear();
    }
    Ok(())
}

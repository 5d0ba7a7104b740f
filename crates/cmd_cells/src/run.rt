// A run of a command that reads cells, after its settings.
ghost use Rattle.std.specs.Prelude.{◌≡◌, ◌≤◌, ◌<◌, ◌+◌, ◌*◌, true, length, is_some};
ghost use Rattle.station_core.specs.declared.ports.OutPort.{OutPort};
ghost use Rattle.cmd_base.specs.Causes.{FlushesOnly};
ghost use Rattle.cmd_cells.specs.Stops.{HasEndCause, Settles};
ghost use Rattle.cmd_cells.specs.Work.{HasReason};
ghost use Rattle.cmd_cells.specs.Cells.{EndsWithin, TakesAtMost};
ghost use Rattle.cmd_cells.specs.Runs.{AsksOutputs, CanBegin, IsReady, PortsOnly, RanBehind, RunsCells};

use crate::cells::work_on_cells;
use crate::opening::open_cells;
use crate::outputs::OutputFiles;
use crate::run_error::RunError;
use crate::work::SymbolWork;
use cmd_base::refuse;
use station_core::Station;

// Flushes the outputs if the work has stopped. If that fails it is a write fault, as that write was given first.
fn settle<'a, S: Station<'a>>(worked: Result<(), RunError>, station: &mut S) -> Result<(), RunError>
    ensures others { FlushesOnly (S.meaning station.old) (S.meaning station.new) }
    ensures settles { Settles worked (S.meaning station.old) (S.meaning station.new) result }
{
    match worked {
        Ok(()) => Ok(()),
        Err(stop) => match station.flush() {
            Ok(()) => Err(stop),
            Err(_) => Err(RunError::WriteFault),
        },
    }
}

// Creates the outputs, does the work on the rest of Cells, and closes the outputs, whatever the result. If the work has
// stopped they are flushed first.
fn run_behind<'a, F: OutputFiles<'a, S>, X: SymbolWork<'a, S>, S: Station<'a>>(
    max_symbols: u32,
    files: &F,
    work: &mut X,
    symbol: &mut [u8],
    station: &mut S,
) -> Result<(), RunError>
    requires able { X.able }
    requires attached { (S.meaning station.old).cells.attached ≡ true }
    requires begin { CanBegin (F.names files.now) (S.meaning station.old) }
    requires outputs { (port : OutPort) → X.outputs (X.setup work.old) port ≡ is_some (F.names files.now port) }
    requires size { length symbol.old ≡ (X.work (X.setup work.old)).size }
    requires some { 0 < length symbol.old }
    requires new { X.is_new work.old }
    ensures others { PortsOnly (S.meaning station.old) (S.meaning station.new) }
    ensures cells_asked { (S.meaning station.new).cells.asked ≡ (S.meaning station.old).cells.asked }
    ensures asks { AsksOutputs (F.names files.now) (S.meaning station.old) (S.meaning station.new) }
    ensures cause { HasEndCause ((S.meaning station.old).tells ≡ true
        → EndsWithin (X.work (X.setup work.old)) max_symbols (S.meaning station.old).cells.left) (S.meaning station.old)
        (S.meaning station.new) result }
    ensures reason { HasReason (X.work (X.setup work.old)) result }
    ensures later_report { (S.meaning station.old).report_faults ≤ (S.meaning station.new).report_faults }
    ensures ran { RanBehind (X.work (X.setup work.old)) max_symbols (F.names files.now) (S.meaning station.old)
        (S.meaning station.new) result }
    ensures taken { TakesAtMost ((max_symbols + 1) * (X.work (X.setup work.old)).size) (S.meaning station.old)
        (S.meaning station.new) }
{
    files.create(station)?;
    let worked = work_on_cells(max_symbols, work, symbol, station);
    let settled = settle(worked, station);
    let closed = files.close(station);
    settled.and(closed)
}

/// Runs a command on the cells of the file of this name, with its work and its outputs, and returns the status.
///
/// The cells are opened and their header, if one is required, is read before an output is created: cells that do not
/// begin with it are rejected. `symbol` has the size of a symbol of the work, and the limit is in whole symbols after
/// the header. The outputs are those that the work writes.
pub fn run_cells<'a, F: OutputFiles<'a, S>, X: SymbolWork<'a, S>, S: Station<'a>>(
    max_symbols: u32,
    cells: &'a str,
    header: Option<[u8; 8]>,
    files: &F,
    work: &mut X,
    symbol: &mut [u8],
    station: &mut S,
) -> u8
    requires able { X.able }
    requires ready { IsReady (F.names files.now) (S.meaning station.old) }
    requires outputs { (port : OutPort) → X.outputs (X.setup work.old) port ≡ is_some (F.names files.now port) }
    requires size { length symbol.old ≡ (X.work (X.setup work.old)).size }
    requires some { 0 < length symbol.old }
    requires new { X.is_new work.old }
    ensures runs { RunsCells (X.work (X.setup work.old)) max_symbols cells.now header (F.names files.now)
        (S.meaning station.old) (S.meaning station.new) result }
{
    match open_cells(cells, header, station) {
        Ok(()) => match run_behind(max_symbols, files, work, symbol, station) {
            Ok(()) => 0,
            Err(stop) => refuse(&stop.refusal(max_symbols), station),
        },
        Err(refusal) => refuse(&refusal, station),
    }
}

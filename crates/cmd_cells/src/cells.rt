// The loop over the symbols of a file of cells.
ghost use Rattle.std.specs.Prelude.{◌≡◌, ◌≤◌, ◌<◌, ◌+◌, ◌*◌, ℕ, List, [], true, IfOk, IsTrue, length};
ghost use Rattle.cmd_cells.specs.Stops.{HasCause};
ghost use Rattle.cmd_cells.specs.Symbols.{symbols};
ghost use Rattle.cmd_cells.specs.Work.{AreOpen, GoesOn, HasReason, Written};
ghost use Rattle.station_core.specs.Meaning.{Meaning};
ghost use Rattle.cmd_cells.specs.Cells.{IsWorking, KeepsOthers, Next, TakesAtMost, Works};

use crate::run_error::RunError;
use crate::work::SymbolWork;
use cmd_base::fill;
use station_core::{InPort, Station};

// Passes on the symbol of this number, or the remaining bytes of the cells. Returns whether the symbol was whole; the
// one after the limit must not be. Each read requests the bytes still missing.
fn take_next<'a, X: SymbolWork<'a, S>, S: Station<'a>>(
    number: u32,
    max_symbols: u32,
    work: &mut X,
    symbol: &mut [u8],
    station: &mut S,
) -> Result<bool, RunError>
    requires able { X.able }
    requires attached { (S.meaning station.old).cells.attached ≡ true }
    requires open { AreOpen (X.outputs (X.setup work.old)) (S.meaning station.old) }
    requires size { length symbol.old ≡ (X.work (X.setup work.old)).size }
    requires some { 0 < length symbol.old }
    requires going { GoesOn (X.work (X.setup work.old)) (X.stands work.old) }
    requires within { number ≤ max_symbols }
    ensures size { length symbol.new ≡ length symbol.old }
    ensures setup { X.setup work.new ≡ X.setup work.old }
    ensures others { KeepsOthers (S.meaning station.old) (S.meaning station.new) }
    ensures cause { HasCause (S.meaning station.old) (S.meaning station.new) result }
    ensures reason { HasReason (X.work (X.setup work.old)) result }
    ensures later_report { (S.meaning station.old).report_faults ≤ (S.meaning station.new).report_faults }
    ensures taken { TakesAtMost (X.work (X.setup work.old)).size (S.meaning station.old) (S.meaning station.new) }
    ensures below { IfOk result (λ whole. IsTrue whole → number < max_symbols) }
    ensures next { (file bytes : List ℕ) (given : Written) (start : Meaning) → length bytes
        ≡ number * (X.work (X.setup work.old)).size
        → IsWorking (X.work (X.setup work.old)) (X.stands work.old) file start (S.meaning station.old) bytes given
        → Next (X.work (X.setup work.old)) (X.stands work.new) max_symbols file number start (S.meaning station.new)
        result }
{
    work.law();
    let filled = match fill(station, InPort::Cells, symbol) {
        Ok(filled) => filled,
        Err(_) => return Err(RunError::ReadFault),
    };
    let whole = filled == symbol.len();
    if whole && number == max_symbols {
        return Err(RunError::Limit);
    }
    work.take(&symbol[..filled], station)?;
    Ok(whole)
}

// Ends the work after the cells taken.
fn end<'a, X: SymbolWork<'a, S>, S: Station<'a>>(
    work: &mut X,
    station: &mut S,
) -> Result<(), RunError>
    requires able { X.able }
    requires open { AreOpen (X.outputs (X.setup work.old)) (S.meaning station.old) }
    requires going { GoesOn (X.work (X.setup work.old)) (X.stands work.old) }
    ensures others { KeepsOthers (S.meaning station.old) (S.meaning station.new) }
    ensures cause { HasCause (S.meaning station.old) (S.meaning station.new) result }
    ensures reason { HasReason (X.work (X.setup work.old)) result }
    ensures later_report { (S.meaning station.old).report_faults ≤ (S.meaning station.new).report_faults }
    ensures left { (S.meaning station.new).cells.left ≡ (S.meaning station.old).cells.left }
    ensures ends { (most : ℕ) (file bytes : List ℕ) (given : Written) (start : Meaning)
        → symbols (X.work (X.setup work.old)).size bytes ≤ most
        → (IsTrue (S.meaning station.old).tells → (S.meaning station.old).cells.left ≡ [])
        → IsWorking (X.work (X.setup work.old)) (X.stands work.old) file start (S.meaning station.old) bytes given
        → Works (X.work (X.setup work.old)) most file start (S.meaning station.new) result }
{
    work.finish(station)
}

/// Does the work on the cells, from their first symbol to their end, and ends it.
///
/// It stops at one whole symbol more than the limit, at a fault, or if the work refuses the cells.
pub(crate) fn work_on_cells<'a, X: SymbolWork<'a, S>, S: Station<'a>>(
    max_symbols: u32,
    work: &mut X,
    symbol: &mut [u8],
    station: &mut S,
) -> Result<(), RunError>
    requires able { X.able }
    requires attached { (S.meaning station.old).cells.attached ≡ true }
    requires open { AreOpen (X.outputs (X.setup work.old)) (S.meaning station.old) }
    requires size { length symbol.old ≡ (X.work (X.setup work.old)).size }
    requires some { 0 < length symbol.old }
    requires new { X.is_new work.old }
    ensures others { KeepsOthers (S.meaning station.old) (S.meaning station.new) }
    ensures cause { HasCause (S.meaning station.old) (S.meaning station.new) result }
    ensures reason { HasReason (X.work (X.setup work.old)) result }
    ensures later_report { (S.meaning station.old).report_faults ≤ (S.meaning station.new).report_faults }
    ensures taken { TakesAtMost ((max_symbols + 1) * (X.work (X.setup work.old)).size) (S.meaning station.old)
        (S.meaning station.new) }
    ensures works { Works (X.work (X.setup work.old)) max_symbols (S.meaning station.old).cells.left
        (S.meaning station.old) (S.meaning station.new) result }
{
    work.begin(station)?;
    let mut number = 0;
    'symbols: loop {
        let goes_on = take_next(number, max_symbols, work, symbol, station)?;
        if !goes_on {
            return end(work, station);
        }
        number += 1;
    }
}

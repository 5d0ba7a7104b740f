// The work of a command on the symbols of a file of cells.
ghost use Rattle.std.specs.Prelude.{◌≡◌, ◌≤◌, ◌<◌, ◌+◌, ◌++◌, ℕ, List, [], Bool, length};
ghost use Rattle.station_core.specs.declared.ports.OutPort.{OutPort};
ghost use Rattle.cmd_cells.specs.Stops.{HasCause};
ghost use Rattle.cmd_cells.specs.Symbols.{tail};
ghost use Rattle.cmd_cells.specs.Work.{AreOpen, Finishes, GoesOn, HasReason, Takes, Work, WritesOnly, Written};
ghost use Rattle.cmd_cells.specs.Work.{none_written};

use crate::run_error::RunError;
use station_core::Station;

/// The work of a command that reads cells, symbol by symbol.
///
/// Each call writes its own output, to the ports in `outputs` and to the report. `setup` is its constant part, and
/// `work` the definition of its outputs, given that part. `is_new` says that nothing was done yet; `stands bytes
/// given`, that it has taken these bytes of the cells and given this output; `able`, that the work may be done at all.
pub trait SymbolWork<'a, S: Station<'a>> {
    ghost Setup: { Type 0 };

    ghost setup: { Self → Setup };

    ghost work: { Setup → Work };

    ghost outputs: { Setup → OutPort → Bool };

    ghost able: { Type 0 };

    ghost is_new: { Self → Type 0 };

    ghost stands: { Self → List ℕ → Written → Type 0 };

    /// Begins the work: writes what precedes all symbols.
    fn begin(&mut self, station: &mut S) -> Result<(), RunError>
        requires able { able }
        requires open { AreOpen (outputs (setup self.old)) (S.meaning station.old) }
        requires new { is_new self.old }
        ensures setup { setup self.new ≡ setup self.old }
        ensures others { WritesOnly (S.meaning station.old) (S.meaning station.new) }
        ensures cause { HasCause (S.meaning station.old) (S.meaning station.new) result }
        ensures reason { HasReason (work (setup self.old)) result }
        ensures later_report { (S.meaning station.old).report_faults ≤ (S.meaning station.new).report_faults }
        ensures begins { Takes (work (setup self.old)) (stands self.new) [] [] none_written (S.meaning station.old)
            (S.meaning station.new) result };

    /// Takes the next symbol or, if the cells end within it, the part there is of it, and writes the output for it. No
    /// symbol was unfinished before.
    fn take(&mut self, piece: &[u8], station: &mut S) -> Result<(), RunError>
        requires able { able }
        requires open { AreOpen (outputs (setup self.old)) (S.meaning station.old) }
        requires going { GoesOn (work (setup self.old)) (stands self.old) }
        ensures setup { setup self.new ≡ setup self.old }
        ensures others { WritesOnly (S.meaning station.old) (S.meaning station.new) }
        ensures cause { HasCause (S.meaning station.old) (S.meaning station.new) result }
        ensures reason { HasReason (work (setup self.old)) result }
        ensures later_report { (S.meaning station.old).report_faults ≤ (S.meaning station.new).report_faults }
        ensures takes { (bytes : List ℕ) (before : Written) → stands self.old bytes before
            → (work (setup self.old)).Gives bytes before
            → tail (work (setup self.old)).size bytes ≡ 0 → length piece.now ≤ (work (setup self.old)).size
            → Takes (work (setup self.old)) (stands self.new) bytes piece.now before (S.meaning station.old)
            (S.meaning station.new) result };

    /// Ends the work at the end of the cells, and writes the remaining output and the closing lines.
    fn finish(&mut self, station: &mut S) -> Result<(), RunError>
        requires able { able }
        requires open { AreOpen (outputs (setup self.old)) (S.meaning station.old) }
        requires going { GoesOn (work (setup self.old)) (stands self.old) }
        ensures others { WritesOnly (S.meaning station.old) (S.meaning station.new) }
        ensures cause { HasCause (S.meaning station.old) (S.meaning station.new) result }
        ensures reason { HasReason (work (setup self.old)) result }
        ensures later_report { (S.meaning station.old).report_faults ≤ (S.meaning station.new).report_faults }
        ensures finishes { (bytes : List ℕ) (before : Written) → stands self.old bytes before
            → (work (setup self.old)).Gives bytes before
            → Finishes (work (setup self.old)) bytes before (S.meaning station.old) (S.meaning station.new) result };

    /// A law of the work: bytes that do not complete a symbol add no output.
    fn law(&self)
        ensures part { (bytes more : List ℕ) (given : Written) → tail (work (setup self.now)).size bytes
            + length more < (work (setup self.now)).size
            → (work (setup self.now)).Gives bytes given → (work (setup self.now)).Gives (bytes ++ more) given };
}

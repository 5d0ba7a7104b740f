// Copying the symbols after a place.
ghost use Rattle.std.specs.Prelude.{◌≡◌, ◌≤◌, ◌<◌, ◌^◌, ◌++◌, ℕ, List, length, Some};
ghost use Rattle.mode_set.specs.declared.settings.Settings.{Settings as AnySettings};
ghost use Rattle.reception.specs.Cells.{symbol_length, tail};
ghost use Rattle.cmd_cells.specs.Outputs.{IsWriting};
ghost use Rattle.cmd_cells.specs.Stops.{HasCause};
ghost use Rattle.cmd_cells.specs.Work.{AreOpen, Does, WritesOnly, Written};
ghost use Rattle.cmd_convert.specs.Working.{writes_at};
ghost use Rattle.tune_in.specs.declared.frame.Found.{Found as AnyFound};
ghost use Rattle.cmd_align.specs.Working.{GivesAt, IsCopying};

use cmd_cells::{RunError, write_some};
use station_core::{OutPort, Station};

/// The counts of the symbols after a place.
#[derive(Clone, Copy, Debug)]
pub(crate) struct Copying {
    /// The number of symbols still to skip.
    pub skip: u64,
    /// The number of whole symbols copied.
    pub symbols: u64,
    /// The number of bytes after them.
    pub tail: u64,
}

impl Copying {
    /// Takes the next symbol of `size` bytes, or the part there is of it. Before the next super-frame it is skipped;
    /// from there on it is copied if it is whole.
    pub(crate) fn take<'a, S: Station<'a>>(
        &mut self,
        size: usize,
        piece: &[u8],
        station: &mut S,
    ) -> Result<(), RunError>
        requires open { AreOpen writes_at (S.meaning station.old) }
        requires few { self.old.symbols < 2 ^ 32 }
        ensures kind { IsWriting result }
        ensures others { WritesOnly (S.meaning station.old) (S.meaning station.new) }
        ensures cause { HasCause (S.meaning station.old) (S.meaning station.new) result }
        ensures later_report { (S.meaning station.old).report_faults ≤ (S.meaning station.new).report_faults }
        ensures takes { (s : AnySettings) (found : AnyFound) (bytes : List ℕ) (given : Written) → size ≡ symbol_length s
            → IsCopying s found bytes self.old → GivesAt s bytes (Some found) given
            → tail s bytes ≡ 0 → length piece.now ≤ size
            → Does (λ after. IsCopying s found (bytes ++ piece.now) self.new)
            (GivesAt s (bytes ++ piece.now) (Some found)) (λ r. ⊥) given (S.meaning station.old)
            (S.meaning station.new) result }
    {
        reception::laws::symbols();
        if self.skip > 0 {
            if piece.len() == size {
                self.skip -= 1;
            }
            return Ok(());
        }
        if piece.len() != size {
            self.tail = piece.len() as u64;
            return Ok(());
        }
        self.symbols += 1;
        write_some(OutPort::Cells, piece, station)
    }
}

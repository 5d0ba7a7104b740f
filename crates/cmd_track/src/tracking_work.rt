// The work of `track` on the symbols of a file of cells.
ghost use Rattle.std.specs.Prelude.{◌≡◌, ◌+◌, ◌-◌, ◌*◌, ◌<◌, ◌≤◌, ◌^◌, ◌++◌, ◌∷◌, [], ℕ, List, true, false, length};
ghost use Rattle.std.specs.Prelude.{vec_capacity};
ghost use Rattle.tracking.specs.Tracking.{Symbol};
ghost use Rattle.tracker.specs.Tracks.{Tracks};
ghost use Rattle.cmd_track.specs.Working.{next_given, symbol_in};

use crate::rest::write_rest;
use cmd_cells::{RunError, SymbolWork, write_some};
use cmd_convert::line_of_counts;
use frame_build::{SymbolIn, header};
use mode_set::Carriers;
use station_core::{OutPort, Station};
use tracker::Tracker;

// Takes the next whole symbol. `room` then has the corrected symbol seven before it, if there is one.
fn take_symbol<M: Carriers>(
    tracker: &mut Tracker<M>,
    symbol: &mut SymbolIn<M>,
    bytes: &[u8],
    room: &mut Vec<u8>,
)
    requires whole { length bytes.now ≡ 5 * M.K }
    requires empty { symbol.old ≡ [] }
    requires few { tracker.old.window.count < 2 ^ 32 }
    requires going { tracker.old.ended ≡ false }
    requires room { 5 * M.K ≤ vec_capacity room.old }
    ensures settings { tracker.new.settings ≡ tracker.old.settings }
    ensures going { tracker.new.ended ≡ false }
    ensures empty { symbol.new ≡ [] }
    ensures capacity { vec_capacity room.new ≡ vec_capacity room.old }
    ensures tracks { (symbols : List Symbol) → Tracks tracker.old symbols
        → Tracks tracker.new (symbols ++ symbol_in bytes.now M.K ∷ []) }
    ensures gives { (symbols : List Symbol) → Tracks tracker.old symbols → room.new.items
        ≡ next_given tracker.old.settings symbols (symbol_in bytes.now M.K) }
{
    symbol.take(bytes);
    room.clear();
    tracker.take(symbol.cells(), symbol.weights(), room);
    symbol.next();
}

/// A tracker, with the symbol being read, space for a corrected one, and the counts.
#[derive(Drop)]
pub(crate) struct TrackingWork<M: Carriers> {
    /// Corrects the symbols.
    pub tracker: Tracker<M>,
    /// The bytes of a symbol as cells and weights.
    pub symbol: SymbolIn<M>,
    /// Space for a corrected symbol.
    pub room: Vec<u8>,
    /// The number of whole symbols taken.
    pub symbols: u64,
    /// The number of bytes taken after them.
    pub tail: u64,
}

impl<'a, S: Station<'a>, M: Carriers> SymbolWork<'a, S> for TrackingWork<M> {
    ghost use Rattle.std.specs.Prelude.{⊤, vec_capacity};
    ghost use Rattle.mode_set.specs.declared.settings.Settings.{Settings};
    ghost use Rattle.cmd_convert.specs.Working.{writes_at};
    ghost use Rattle.cmd_track.specs.Working.{IsNew, Stands, tracking_work};

    ghost Setup = { Settings };

    ghost setup = { λ x. x.tracker.settings };

    ghost work = { λ s. tracking_work s };

    ghost outputs = { λ s. writes_at };

    ghost able = { ⊤ };

    ghost is_new = { λ x. IsNew M.MODE x.tracker x.symbol (vec_capacity x.room) x.symbols x.tail };

    ghost stands = { λ x bytes given. Stands M.MODE x.tracker x.symbol (vec_capacity x.room) x.symbols x.tail bytes
        given };

    fn begin(&mut self, station: &mut S) -> Result<(), RunError> {
        write_some(OutPort::Cells, &header(M::MODE), station)
    }

    fn take(&mut self, piece: &[u8], station: &mut S) -> Result<(), RunError> {
        reception::laws::symbols();
        tracking::laws::live_symbols_stay();
        if piece.len() != 5 * M::K as usize {
            self.tail = piece.len() as u64;
            return Ok(());
        }
        take_symbol(&mut self.tracker, &mut self.symbol, piece, &mut self.room);
        self.symbols += 1;
        write_some(OutPort::Cells, &self.room, station)
    }

    fn finish(&mut self, station: &mut S) -> Result<(), RunError> {
        self.tracker.end();
        write_rest(&mut self.tracker, &mut self.room, station)?;
        let line = line_of_counts(self.symbols, self.tail);
        write_some(OutPort::Report, line.as_str().as_bytes(), station)
    }

    fn law(&self) {
        reception::laws::symbols();
        tracking::laws::live_symbols_stay();
    }
}

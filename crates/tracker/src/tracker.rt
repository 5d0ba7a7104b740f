// The tracker.
ghost use Rattle.std.specs.Prelude.{◌≡◌, ◌↔◌, ℕ, ◌+◌, ◌-◌, ◌*◌, ◌∷◌, ◌++◌, ◌<◌, ◌≤◌, ◌^◌, [], List, IfOk, IsTrue};
ghost use Rattle.std.specs.Prelude.{false, true, if◌then◌else◌, length, vec_len, vec_capacity};
ghost use Rattle.tracking.specs.Tracking.{tracked_bytes, Symbol};
ghost use Rattle.tracker.specs.Tracks.{Tracks};

use crate::gains::GainRoom;
use crate::symbol::{push_symbol, see};
use mode_set::{Carriers, Settings};
use qam_map::Cell;
use std::alloc::{AllocError, Global};
use std::marker::Model;
use track_motion::{Residues, no_changes, push_change};
use track_pilots::PilotWindow;
use track_ring::SymbolRing;

/// Corrects the symbols of a file, each by the scattered pilots of the symbols from seven before it to seven after
/// it, and weighs their cells.
///
/// It stands for the symbols that it has had. A symbol is given once the seventh after it was taken, and the last seven
/// after the end. No call but `new` takes memory.
#[derive(Drop)]
pub struct Tracker<M: Carriers> {
    settings: Settings,
    window: PilotWindow<M>,
    ring: SymbolRing<M>,
    means: Option<Residues>,
    // The changes of the last symbols.
    kept: [u64; 16],
    // The symbols that were given.
    given: u64,
    ended: bool,
    room: GainRoom<M>,
}

impl<M: Carriers> Model for Tracker<M> {
    ghost use Rattle.tracker.specs.Tracks.{TrackerState, IsTracking};

    ghost Value = { TrackerState };

    ghost view = { λ t. record {
      settings = t.settings;
      window = t.window;
      ring = t.ring;
      means = t.means;
      changes = t.kept;
      given
          = t.given;
      ended = t.ended;
    } };

    ghost invariant = { λ t. IsTracking M.MODE
        (record {
          settings = t.settings;
          window = t.window;
          ring = t.ring;
          means = t.means;
          changes = t.kept;
          given = t.given;
          ended
              = t.ended;
        }) };
}

impl<M: Carriers> Tracker<M> {
    /// A tracker that has had no symbol. It takes all its memory; the only error is want of it. The settings are of the
    /// mode `M`.
    pub fn new(alloc: Global, settings: &Settings) -> Result<Self, AllocError>
        requires mode { settings.now.mode ≡ M.MODE }
        ensures settings { IfOk result (λ t. t.settings ≡ settings.now) }
        ensures count { IfOk result (λ t. t.window.count ≡ 0) }
        ensures going { IfOk result (λ t. t.ended ≡ false) }
        ensures tracks { IfOk result (λ t. Tracks t []) }
    {
        let window = PilotWindow::new(alloc)?;
        let ring = SymbolRing::new(alloc)?;
        let room = GainRoom::new(alloc)?;
        Ok(Tracker {
            settings: *settings,
            window,
            ring,
            means: None,
            kept: no_changes(),
            given: 0,
            ended: false,
            room,
        })
    }

    /// Takes the next symbol by the cells of all its carriers and their weights, a weight above 15 as 15. From the
    /// eighth symbol on it answers true, and the symbol seven before is appended. It has had fewer than 2^32 symbols
    /// and has not ended. The spare of `to` has room for a symbol.
    pub fn take(&mut self, cells: &[Cell], weights: &[u8], to: &mut Vec<u8>) -> bool
        requires cells { length cells.now ≡ M.K }
        requires weights { length weights.now ≡ M.K }
        requires few { self.old.window.count < 2 ^ 32 }
        requires going { self.old.ended ≡ false }
        requires room { vec_len to.old + 5 * M.K ≤ vec_capacity to.old }
        ensures settings { self.new.settings ≡ self.old.settings }
        ensures count { self.new.window.count ≡ self.old.window.count + 1 }
        ensures going { self.new.ended ≡ false }
        ensures capacity { vec_capacity to.new ≡ vec_capacity to.old }
        ensures answer { IsTrue result ↔ 8 ≤ self.new.window.count }
        ensures tracks { (symbols : List Symbol) → Tracks self.old symbols
            → Tracks self.new (symbols ++ record { cells = cells.now; weights = weights.now } ∷ []) }
        ensures gives { (symbols : List Symbol) → Tracks self.old symbols → to.new.items ≡ to.old.items
            ++ (if result then tracked_bytes self.old.settings
            (symbols ++ record { cells = cells.now; weights = weights.now } ∷ []) (length symbols - 7) else []) }
    {
        self.window.push(cells);
        self.ring.push(cells, weights);
        push_change(&self.window, &mut self.kept);
        if self.window.count() < 8 {
            return false;
        }
        let seen = see(&self.window, self.given, &self.kept, self.means);
        push_symbol(
            &self.settings,
            &self.window,
            &self.ring,
            self.given,
            &seen,
            &mut self.room,
            to,
        );
        self.means = seen.means;
        self.given += 1;
        true
    }

    /// Ends the file. It has not ended before.
    pub fn end(&mut self)
        requires { self.old.ended ≡ false }
        ensures settings { self.new.settings ≡ self.old.settings }
        ensures count { self.new.window.count ≡ self.old.window.count }
        ensures given { self.new.given ≡ self.old.window.count - 7 }
        ensures ended { self.new.ended ≡ true }
        ensures tracks { (symbols : List Symbol) → Tracks self.old symbols → Tracks self.new symbols }
    {
        self.ended = true;
    }

    /// Appends the next of the symbols that were not given yet, and answers true, or false if none is left. The file
    /// has ended. The spare of `to` has room for a symbol.
    pub fn rest(&mut self, to: &mut Vec<u8>) -> bool
        requires ended { self.old.ended ≡ true }
        requires room { vec_len to.old + 5 * M.K ≤ vec_capacity to.old }
        ensures settings { self.new.settings ≡ self.old.settings }
        ensures count { self.new.window.count ≡ self.old.window.count }
        ensures ended { self.new.ended ≡ true }
        ensures capacity { vec_capacity to.new ≡ vec_capacity to.old }
        ensures answer { IsTrue result ↔ self.old.given < self.old.window.count }
        ensures given { self.new.given ≡ (if result then self.old.given + 1 else self.old.given) }
        ensures tracks { (symbols : List Symbol) → Tracks self.old symbols → Tracks self.new symbols }
        ensures gives { (symbols : List Symbol) → Tracks self.old symbols → to.new.items ≡ to.old.items
            ++ (if result then tracked_bytes self.old.settings symbols self.old.given else []) }
    {
        if self.given == self.window.count() {
            return false;
        }
        let seen = see(&self.window, self.given, &self.kept, self.means);
        push_symbol(
            &self.settings,
            &self.window,
            &self.ring,
            self.given,
            &seen,
            &mut self.room,
            to,
        );
        self.means = seen.means;
        self.given += 1;
        true
    }

    /// Has the file ended?
    pub fn ended(&self) -> bool
        ensures { result ≡ self.now.ended }
    {
        self.ended
    }
}

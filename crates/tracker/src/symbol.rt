// The correction of a symbol.
ghost use Rattle.std.specs.Prelude.{◌≡◌, ℕ, ◌+◌, ◌-◌, ◌*◌, ◌++◌, ◌<◌, ◌≤◌, ◌^◌, List, length, map, vec_len};
ghost use Rattle.std.specs.Prelude.{vec_capacity};
ghost use Rattle.mode_set.specs.StreamTable.{carriers};
ghost use Rattle.tracking.specs.BadSymbols.{middle as middle_of};
ghost use Rattle.tracking.specs.Tracking.{comb, gain, reference_power, tracked_bytes, Symbol};
ghost use Rattle.qam_map.specs.declared.cell.Cell.{Cell};
ghost use Rattle.tracking.specs.Comb.{comb_of};
ghost use Rattle.track_motion.specs.Around.{IsAround, IsLook};
ghost use Rattle.track_motion.specs.Kept.{AreLow, KeepsChanges};
ghost use Rattle.track_motion.specs.Means.{AreMeans, AreSmall};
ghost use Rattle.track_pilots.specs.Window.{StandsFor};
ghost use Rattle.track_ring.specs.Ring.{Keeps};
ghost use Rattle.track_cells.specs.Gains.{gain_of, AreWithin};

use crate::gains::GainRoom;
use mode_set::{Carriers, Settings};
use track_arithmetic::Complex;
use track_cells::{full_power, mean_power, push_corrected};
use track_motion::{Residues, Surroundings, follow, look_by, motion, noise};
use track_pilots::PilotWindow;
use track_ring::SymbolRing;
use track_turns::continual_points;

// The power at which a cell of symbol `m` has full weight, in a file of `count` symbols so far.
fn reference_power<M: Carriers>(
    settings: &Settings,
    count: u64,
    m: u64,
    means: Option<Residues>,
    middle: u64,
    gains: &[Complex],
) -> u64
    requires mode { settings.now.mode ≡ M.MODE }
    requires there { m < count }
    requires late { count ≤ m + 8 }
    requires few { count ≤ 2 ^ 32 }
    requires means { AreSmall means }
    requires middle { middle ≤ 2 ^ 44 }
    requires carriers { length gains.now ≡ carriers M.MODE }
    requires gains { AreWithin (2 ^ 25) gains.now }
    ensures is { (symbols : List Symbol) → count ≡ length symbols → AreMeans (comb settings.now symbols) m means
        → middle ≡ middle_of (comb settings.now symbols) m → ((k : ℕ) → k < carriers M.MODE → gain_of gains.now k ≡ gain
        settings.now (comb settings.now symbols) m k) → result
        ≡ reference_power settings.now (comb settings.now symbols) m }
    ensures some { 1 ≤ result }
    ensures most { result ≤ 2 ^ 52 }
{
    let mean = mean_power(M::MODE, gains);
    if count == 1 {
        return mean;
    }
    let shape = settings.entry((m / 272) as u32).shape;
    let pilots = continual_points(M::MODE).len() as u64;
    full_power(shape, mean, noise(means, middle), pilots)
}

/// What is seen around a symbol, and the running means after it.
#[derive(Clone, Copy)]
pub(crate) struct Seen {
    /// The symbols around it.
    pub(crate) around: Surroundings,
    /// The running means.
    pub(crate) means: Option<Residues>,
}

/// Looks at the symbols around symbol `m`, by the kept changes and by the running means before it.
pub(crate) fn see<M: Carriers>(
    window: &PilotWindow<M>,
    m: u64,
    kept: &[u64; 16],
    means: Option<Residues>,
) -> Seen
    requires there { m < window.now.count }
    requires late { window.now.count ≤ m + 8 }
    requires few { window.now.count ≤ 2 ^ 32 }
    requires low { AreLow kept.now }
    requires means { AreSmall means }
    ensures looks { IsLook window.now.count m result.around }
    ensures small { AreSmall result.means }
    ensures are { (symbols : List (List Cell)) → StandsFor M.MODE window.now symbols
        → KeepsChanges (comb_of M.MODE symbols) kept.now → IsAround (comb_of M.MODE symbols) m result.around }
    ensures means { (symbols : List (List Cell)) → StandsFor M.MODE window.now symbols
        → KeepsChanges (comb_of M.MODE symbols) kept.now → AreMeans (comb_of M.MODE symbols) (m - 1) means
        → AreMeans (comb_of M.MODE symbols) m result.means }
{
    let around = look_by(window, m, kept);
    let after = follow(window, m, &around, means);
    Seen {
        around,
        means: after,
    }
}

/// Appends symbol `m`, corrected, by what is seen around it.
pub(crate) fn push_symbol<M: Carriers>(
    settings: &Settings,
    window: &PilotWindow<M>,
    ring: &SymbolRing<M>,
    m: u64,
    seen: &Seen,
    room: &mut GainRoom<M>,
    to: &mut Vec<u8>,
)
    requires mode { settings.now.mode ≡ M.MODE }
    requires there { m < window.now.count }
    requires late { window.now.count ≤ m + 8 }
    requires few { window.now.count ≤ 2 ^ 32 }
    requires same { ring.now.count ≡ window.now.count }
    requires look { IsLook window.now.count m seen.now.around }
    requires means { AreSmall seen.now.means }
    requires room { vec_len to.old + 5 * M.K ≤ vec_capacity to.old }
    ensures capacity { vec_capacity to.new ≡ vec_capacity to.old }
    ensures appended { (symbols : List Symbol) → StandsFor M.MODE window.now (map (λ x. x.cells) symbols)
        → Keeps M.K ring.now symbols → IsAround (comb_of M.MODE (map (λ x. x.cells) symbols)) m seen.now.around
        → AreMeans (comb_of M.MODE (map (λ x. x.cells) symbols)) m seen.now.means → to.new.items ≡ to.old.items
        ++ tracked_bytes settings.now symbols m }
{
    let around = &seen.around;
    let means = seen.means;
    let motion = motion(settings.guard, means);
    room.find(settings.guard, window, m, around, motion);
    let gains = room.gains();
    let full = reference_power::<M>(settings, window.count(), m, means, around.middle, gains);
    push_corrected(full, gains, ring.cells(m), ring.weights(m), to);
}

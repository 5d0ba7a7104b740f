// The turn from a symbol to another, and the change from a symbol to the next.
ghost use Rattle.std.specs.Prelude.{◌≡◌, ℕ, ◌+◌, ◌-◌, ◌<◌, ◌≤◌, ◌^◌, List};
ghost use Rattle.tracking.specs.Comb.{change, comb_of, turn};
ghost use Rattle.track_pilots.specs.Window.{StandsFor};
ghost use Rattle.qam_map.specs.declared.cell.Cell.{Cell};
ghost use Rattle.track_arithmetic.specs.Laws.{IsWithin};

use crate::continual::continual_points;
use crate::sums::{differences, products};
use mode_set::Carriers;
use track_arithmetic::{Complex, direction, shifted};
use track_pilots::PilotWindow;

/// The turn from symbol `t` to symbol `m`, the common phase of all carriers, as a direction of amplitude 2^14.
/// Both are among the last sixteen symbols.
#[tactic(auto, unfolding(tracking::specs::Comb::turn))]
pub fn turn<M: Carriers>(window: &PilotWindow<M>, m: u64, t: u64) -> Complex
    requires m_there { m < window.now.count }
    requires m_late { window.now.count ≤ m + 16 }
    requires t_there { t < window.now.count }
    requires t_late { window.now.count ≤ t + 16 }
    ensures is { (symbols : List (List Cell)) → StandsFor M.MODE window.now symbols → result
        ≡ turn (comb_of M.MODE symbols) m t }
    ensures within { IsWithin (2 ^ 14) result }
{
    if m == t {
        return Complex { re: 1 << 14, im: 0 };
    }
    let sum = products(continual_points(M::MODE), window.row(m), window.row(t));
    direction(shifted(sum, 8))
}

/// How far the continual pilots of symbol `t` are from those of the symbol before, turned to its phase. Both are
/// among the last sixteen symbols.
pub fn change<M: Carriers>(window: &PilotWindow<M>, t: u64) -> u64
    requires first { 1 ≤ t }
    requires there { t < window.now.count }
    requires late { window.now.count ≤ t + 15 }
    ensures is { (symbols : List (List Cell)) → StandsFor M.MODE window.now symbols → result
        ≡ change (comb_of M.MODE symbols) t }
    ensures most { result ≤ 2 ^ 44 }
{
    let phase = turn(window, t, t - 1);
    differences(
        continual_points(M::MODE),
        window.row(t),
        window.row(t - 1),
        phase,
    )
}

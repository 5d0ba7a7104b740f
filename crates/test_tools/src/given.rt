// Settings of tests.
ghost use Rattle.std.specs.Prelude.{◌≡◌, false};
ghost use Rattle.mode_set.specs.Kept.{is_flat, is_qpsk, IsKept};

use mode_set::{Guard, Hierarchy, Mode, Plan, Rate, Settings, Shape, Start};

// Settings with a guard of 1/32, no cell identifier and one worker.
fn given(
    mode: Mode,
    shape: Shape,
    hierarchy: Hierarchy,
    rate_hp: Rate,
    rate_lp: Option<Rate>,
) -> Settings
    requires { IsKept shape hierarchy rate_lp 1 1000000 }
    ensures mode { result.mode ≡ mode }
    ensures shape { result.shape ≡ shape }
{
    Settings {
        mode,
        shape,
        hierarchy,
        rate_hp,
        rate_lp,
        guard: Guard::G1of32,
        cell_id: None,
        start: Start::Zero,
        workers: 1,
        max_symbols: 1000000,
        plan: Plan::none(),
    }
}

/// One stream, with a guard of 1/32, no cell identifier and one worker.
pub fn flat(mode: Mode, shape: Shape, rate: Rate) -> Settings
    ensures mode { result.mode ≡ mode }
    ensures shape { result.shape ≡ shape }
{
    given(mode, shape, Hierarchy::Flat, rate, None)
}

/// Two streams, all else as in [`flat`].
pub fn hierarchical(
    mode: Mode,
    shape: Shape,
    hierarchy: Hierarchy,
    rate_hp: Rate,
    rate_lp: Rate,
) -> Settings
    requires shape { is_qpsk shape ≡ false }
    requires hierarchy { is_flat hierarchy ≡ false }
    ensures mode { result.mode ≡ mode }
    ensures shape { result.shape ≡ shape }
{
    given(mode, shape, hierarchy, rate_hp, Some(rate_lp))
}

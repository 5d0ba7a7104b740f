// What is rarely needed: sums made small, states that are not alive.
ghost use Rattle.std.specs.Prelude.{◌≡◌, ◌≤◌, ◌<◌, ◌+◌, ℕ, IsTrue, IsFalse, slice_index};
ghost use Rattle.acs_plain.specs.Steps.{Close, SomeAlive, alive};
ghost use Rattle.acs_lanes.specs.Lanes.{IsReady, IsSettled, far};

use acs_plain::Sums;

/// Are all states alive, and the sums far from leaving 32 bits?
pub(crate) fn is_ready(sums: &Sums) -> bool
    requires close { Close 131072 sums.now }
    ensures ready { IsTrue result → IsReady sums.now }
{
    sums.alive == u64::MAX && sums.cost[0] < 1 << 30
}

/// A state's cost less the least one, and a cost far above all others where the state is not alive.
fn relative(sums: &Sums, low: u32, state: u8) -> u32
    requires state { state < 64 }
    requires low { (n : ℕ) → n < 64 → IsTrue (alive sums.now n) → low ≤ slice_index sums.now.cost n }
    ensures lives { IsTrue (alive sums.now state) → result + low ≡ slice_index sums.now.cost state }
    ensures dead { IsFalse (alive sums.now state) → result ≡ far }
{
    if sums.is_alive(state) {
        sums.cost[state as usize] - low
    } else {
        1 << 31
    }
}

/// The costs of all states relative to the least one.
fn all_relative(sums: &Sums, low: u32) -> [u32; 64]
    requires low { (n : ℕ) → n < 64 → IsTrue (alive sums.now n) → low ≤ slice_index sums.now.cost n }
    ensures lives { (n : ℕ) → n < 64 → IsTrue (alive sums.now n) → slice_index result n + low
        ≡ slice_index sums.now.cost n }
    ensures dead { (n : ℕ) → n < 64 → IsFalse (alive sums.now n) → slice_index result n ≡ far }
{
    let mut costs = [0u32; 64];
    for n in 0..64u8 {
        costs[n as usize] = relative(sums, low, n);
    }
    costs
}

/// Makes the sums such that no step from them leaves 32 bits, and puts every state that is not alive far above the
/// others.
/// The answer is the number subtracted from all alive costs.
pub(crate) fn settle(sums: &mut Sums) -> u32
    requires some { SomeAlive sums.old }
    requires close { Close 131072 sums.old }
    ensures settled { IsSettled sums.old sums.new result }
    ensures alive { sums.new.alive ≡ sums.old.alive }
{
    let low = sums.least();
    sums.cost = all_relative(sums, low);
    low
}

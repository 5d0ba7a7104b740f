// The step computed state by state.
ghost use Rattle.std.specs.Prelude.{◌≡◌, ◌≤◌, ◌<◌, ℕ, ◌+◌, ◌++◌, ◌∷◌, [], true, IsTrue, ◌||◌, slice_index};
ghost use Rattle.std.specs.Prelude.{if◌then◌else◌};
ghost use Rattle.code_paths.specs.Paths.{step_cost};
ghost use Rattle.code_paths.specs.States.{register, even_of, odd_of};
ghost use Rattle.acs_plain.specs.Steps.{alive, way, takes_odd};

use crate::sums::with_bit;
use crate::{Acs, Sums};
use conv_code::{CostPair, branch};

/// The cost of the step from a state on an input bit.
fn cost_of(pair: CostPair, state: u8, input: bool) -> u32
    requires { state < 64 }
    ensures small { result ≤ 8190 }
    ensures is { result ≡ step_cost pair (register state ++ input ∷ []) }
{
    let (x, y) = branch(state, input);
    let cost_x = if x { pair.x1 } else { pair.x0 };
    let cost_y = if y { pair.y1 } else { pair.y0 };
    cost_x as u32 + cost_y as u32
}

/// The result for one state.
#[derive(Drop)]
struct Choice {
    alive: bool,
    odd: bool,
    cost: u32,
}

/// A state reached from the odd state or from the even one.
fn reached(odd: bool, cost: u32) -> Choice
    ensures alive { result.alive ≡ true }
    ensures odd { result.odd ≡ odd }
    ensures cost { result.cost ≡ cost }
{
    Choice {
        alive: true,
        odd,
        cost,
    }
}

/// Selects the way into a state; `low` is the least cost of an alive state.
fn choose(old: &Sums, low: u32, pair: CostPair, state: u8) -> Choice
    requires state { state < 64 }
    requires low { (n : ℕ) → n < 64 → IsTrue (alive old.now n) → low ≤ slice_index old.now.cost n }
    requires close { (n : ℕ) → n < 64 → IsTrue (alive old.now n) → slice_index old.now.cost n ≤ low + 131072 }
    ensures lives { result.alive ≡ (alive old.now (even_of state) || alive old.now (odd_of state)) }
    ensures odd { IsTrue result.alive → result.odd ≡ takes_odd old.now pair state }
    ensures cost { IsTrue result.alive → result.cost + low ≡ way old.now pair (if takes_odd old.now pair state then
        odd_of state else even_of state) state }
{
    let even = 2 * (state % 32);
    let odd = even + 1;
    let input = (state >> 5) & 1 == 1;
    if old.is_alive(odd) {
        let odd_cost = old.cost[odd as usize] - low + cost_of(pair, odd, input);
        if old.is_alive(even) {
            let even_cost = old.cost[even as usize] - low + cost_of(pair, even, input);
            if odd_cost < even_cost {
                reached(true, odd_cost)
            } else {
                reached(false, even_cost)
            }
        } else {
            reached(true, odd_cost)
        }
    } else if old.is_alive(even) {
        reached(
            false,
            old.cost[even as usize] - low + cost_of(pair, even, input),
        )
    } else {
        Choice {
            alive: false,
            odd: false,
            cost: 0,
        }
    }
}

/// The step as a loop over the states.
#[derive(Debug, Drop)]
pub struct PlainAcs;

impl Acs for PlainAcs {
    fn step(sums: &mut Sums, pair: CostPair) -> u64 {
        let low = sums.least();
        let old = *sums;
        let mut alive = 0u64;
        let mut answer = 0u64;
        let mut cost = [0u32; 64];
        for n in 0..64u8 {
            let choice = choose(&old, low, pair, n);
            cost[n as usize] = choice.cost;
            alive = with_bit(alive, n, choice.alive);
            answer = with_bit(answer, n, choice.odd);
        }
        *sums = Sums { cost, alive };
        answer
    }
}

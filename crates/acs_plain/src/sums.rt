// The path metrics.
ghost use Rattle.std.specs.Prelude.{◌≡◌, ◌≤◌, ◌<◌, ◌+◌, ◌^◌, ◌||◌, ℕ, IsTrue, slice_index};
ghost use Rattle.spec_words.specs.Bits.{is_set};
ghost use Rattle.code_paths.specs.States.{even_of, odd_of};
ghost use Rattle.acs_plain.specs.Steps.{SomeAlive, HasCost, alive};

/// The path metrics of the 64 states, up to a number common to all alive states.
///
/// A state is the register of the inner code as a number below 64: bit 5 is the newest bit, bit 0 the oldest. A state
/// is alive if some path ends in it; the cost of another has no meaning.
#[derive(Clone, Copy, Debug, Drop)]
pub struct Sums {
    /// The cost of the least path to each state.
    pub cost: [u32; 64],
    /// Bit n is set if state n is alive.
    pub alive: u64,
}

/// A word with one more bit.
pub(crate) fn with_bit(word: u64, place: u8, on: bool) -> u64
    requires place { place < 64 }
    requires low { word < 2 ^ place }
    ensures fits { result < 2 ^ (place + 1) }
    ensures before { (k : ℕ) → k < place → is_set result k ≡ is_set word k }
    ensures here { is_set result place ≡ on }
{
    if on { word | 1 << place } else { word }
}

impl Sums {
    /// Whether a state, a number below 64, is alive.
    pub fn is_alive(&self, state: u8) -> bool
        requires state { state < 64 }
        ensures alive { result ≡ alive self.now state }
    {
        (self.alive >> state) & 1 == 1
    }

    /// The least cost of an alive state. Some state must be alive.
    pub fn least(&self) -> u32
        requires some { SomeAlive self.now }
        ensures least { (n : ℕ) → n < 64 → IsTrue (alive self.now n) → result ≤ slice_index self.now.cost n }
        ensures attained { HasCost self.now result }
    {
        let mut low = u32::MAX;
        for n in 0..64u8 {
            let cost = self.cost[n as usize];
            if self.is_alive(n) && cost < low {
                low = cost;
            }
        }
        low
    }

    /// Whether one of the two predecessors of a state is alive.
    fn is_reached(&self, state: u8) -> bool
        requires { state < 64 }
        ensures { result ≡ (alive self.now (even_of state) || alive self.now (odd_of state)) }
    {
        let even = 2 * (state % 32);
        self.is_alive(even) || self.is_alive(even + 1)
    }

    /// The word of the states that are alive after a step.
    pub fn followers(&self) -> u64
        ensures lives { (n : ℕ) → n < 64 → is_set result n ≡ (alive self.now (even_of n) || alive self.now (odd_of n)) }
    {
        if self.alive == u64::MAX {
            return u64::MAX;
        }
        let mut word = 0u64;
        for n in 0..64u8 {
            word = with_bit(word, n, self.is_reached(n));
        }
        word
    }
}

// The definition of survivors.
ghost use Rattle.std.specs.Prelude.{◌≡◌, ◌≢◌, ◌+◌, ◌-◌, ◌<◌, ◌≤◌, ◌^◌, ℕ, Bool, List, [], ◌++◌, length, drop, IfOk};
ghost use Rattle.std.specs.Prelude.{IsTrue};
ghost use Rattle.spec_words.specs.Bits.{is_set};
ghost use Rattle.survivor_ring.specs.Survivors.{IsPushed, IsFollowed, AreAllPushed, AreAlike, IsAlike, GivesAway};
ghost use Rattle.survivor_ring.specs.Survivors.{all_pushed};

use bit_pack::WaitBuf;
use std::alloc::{AllocError, Global};

/// The pending bits of the paths to the alive states: a list for each state, all of the same length, at most `L + 1`.
///
/// `L`, the path memory in steps, is 1 to 2048. Only `new` allocates memory.
pub trait Survivors<const L: usize>: Drop {
    /// The alive states, as a word whose bit n is that of state n.
    ghost states: { Self → ℕ };

    /// The number of pending bits.
    ghost count: { Self → ℕ };

    /// The pending bits of a state, oldest first.
    ghost list: { Self → ℕ → List Bool };

    /// Survivors with these alive states, at least one; no bit is pending. The only error is lack of memory.
    fn new(alloc: Global, alive: u64) -> Result<Self, AllocError>
        requires some { 0 < L }
        requires few { L ≤ 2048 }
        requires alive { alive ≢ 0 }
        ensures states { IfOk result (λ v. states v ≡ alive) }
        ensures count { IfOk result (λ v. count v ≡ 0) }
        ensures list { IfOk result (λ v. (n : ℕ) → n < 64 → IsTrue (is_set alive n) → list v n ≡ []) };

    /// The number of pending bits, the same for all states.
    fn waiting(&self) -> u32
        ensures number { result ≡ count self.now };

    /// Takes a step. At most `L` bits may be pending, `alive` is the next set of states, and the predecessor chosen for
    /// each by the decision word was alive. Each new list is that of the predecessor, then the newest bit of the state.
    fn push(&mut self, decisions: u64, alive: u64)
        requires room { count self.old ≤ L }
        requires follows { IsFollowed (states self.old) decisions alive }
        ensures states { states self.new ≡ alive }
        ensures count { count self.new ≡ count self.old + 1 }
        ensures list { IsPushed (list self.old) decisions alive (list self.new) };

    /// Takes a step on each of the decision words in order, with all states alive before and after each. At most `L +
    /// 1` bits may be pending afterwards.
    fn push_all(&mut self, decisions: &[u64])
        requires all { states self.old ≡ 2 ^ 64 - 1 }
        requires room { count self.old + length decisions.now ≤ L + 1 }
        ensures states { states self.new ≡ states self.old }
        ensures count { count self.new ≡ count self.old + length decisions.now }
        ensures list { AreAllPushed (list self.old) decisions.now (list self.new) }
    {
        for k in 0..decisions.len() {
            self.push(decisions[k], u64::MAX);
        }
    }

    /// The length of the longest common prefix of the lists of all alive states.
    fn shared(&self) -> u32
        ensures shared { IsAlike (states self.now) (list self.now) (count self.now) result };

    /// Moves the first `number` bits, which all alive states share, to the end of `to`. There must be room for them.
    fn give(&mut self, number: u32, to: &mut WaitBuf)
        requires within { number ≤ count self.old }
        requires alike { AreAlike (states self.old) (list self.old) number }
        requires room { length to.old + number ≤ 36864 }
        ensures states { states self.new ≡ states self.old }
        ensures count { count self.new ≡ count self.old - number }
        ensures list { (n : ℕ) → n < 64 → IsTrue (is_set (states self.old) n) → list self.new n
            ≡ drop number (list self.old n) }
        ensures amount { length to.new ≡ length to.old + number }
        ensures given { GivesAway (states self.old) (list self.old) number to.old to.new };

    /// Takes a step on each of the decision words in order, with all states alive before and after each, and moves the
    /// bits that all states then share to the end of `to`, where there must be room for all pending bits. Returns their
    /// number. The result is that of `push_all`, `shared` and `give`; at most `L + 1` bits may be pending in between.
    fn push_and_give(&mut self, decisions: &[u64], to: &mut WaitBuf) -> u32
        requires all { states self.old ≡ 2 ^ 64 - 1 }
        requires few { count self.old + length decisions.now ≤ L + 1 }
        requires room { length to.old + count self.old + length decisions.now ≤ 36864 }
        ensures states { states self.new ≡ states self.old }
        ensures count { count self.new + result ≡ count self.old + length decisions.now }
        ensures shared { IsAlike (states self.old) (all_pushed (list self.old) decisions.now) (count self.old
            + length decisions.now) result }
        ensures list { (n : ℕ) → n < 64 → list self.new n ≡ drop result (all_pushed (list self.old) decisions.now n) }
        ensures amount { length to.new ≡ length to.old + result }
        ensures given { GivesAway (states self.old) (all_pushed (list self.old) decisions.now) result to.old to.new }
    {
        self.push_all(decisions);
        let number = self.shared();
        self.give(number, to);
        number
    }

    /// Moves all bits of the alive state `end` to the end of `to`, where there must be room for them. Only this state
    /// is then alive, and no bit is pending.
    fn force(&mut self, end: u8, to: &mut WaitBuf)
        requires below { end < 64 }
        requires lives { IsTrue (is_set (states self.old) end) }
        requires room { length to.old + count self.old ≤ 36864 }
        ensures amount { length to.new ≡ length to.old + count self.old }
        ensures given { to.new ≡ to.old ++ list self.old end }
        ensures states { states self.new ≡ 2 ^ end }
        ensures count { count self.new ≡ 0 }
        ensures list { list self.new end ≡ [] };
}

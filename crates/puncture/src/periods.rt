// What is sent of eight steps, by a table over the places of a period.
ghost use Rattle.std.specs.Prelude.{◌≡◌, ◌+◌, ◌*◌, ◌<◌, ◌≤◌, ◌%◌, ℕ};
ghost use Rattle.spec_words.specs.Bits.{spelled};
ghost use Rattle.mode_set.specs.StreamTable.{steps_in_period};
ghost use Rattle.puncture.specs.Steps.{bits_of_steps};
ghost use Rattle.puncture.specs.Periods.{AreAllWords, AreEnds, AreWords, IsEnd, IsPeriodTable};

use crate::eight_steps::{Bits, punctured};
use mode_set::Rate;

// For each place of a rate's period and each byte: what is sent of eight steps from there on whose X is the byte and
// whose Y is zeros, and the other way round; and for each place how many bits these are, and the place after the
// steps.
#[derive(Debug, Drop)]
pub(crate) struct PeriodTable {
    pub words: [(u16, u16); 1792],
    pub ends: [(u8, u8); 7],
}

fn words_of(rate: Rate, place: u8, byte: u8) -> (u16, u16)
    requires { place < steps_in_period rate }
    ensures { AreWords rate place byte result }
{
    let (x, _) = punctured(rate, place, byte, 0);
    let (y, _) = punctured(rate, place, 0, byte);
    (x.word, y.word)
}

fn end_of(rate: Rate, place: u8) -> (u8, u8)
    requires { place < steps_in_period rate }
    ensures { IsEnd rate place result }
{
    let (none, next) = punctured(rate, place, 0, 0);
    (none.count, next)
}

fn all_words(rate: Rate) -> [(u16, u16); 1792]
    ensures { AreAllWords rate (256 * steps_in_period rate) result }
{
    let mut words = [(0, 0); 1792];
    for k in 0..256 * rate.steps_in_period() as usize {
        words[k] = words_of(rate, (k / 256) as u8, (k % 256) as u8);
    }
    words
}

fn all_ends(rate: Rate) -> [(u8, u8); 7]
    ensures { AreEnds rate (steps_in_period rate) result }
{
    let mut ends = [(0, 0); 7];
    for place in 0..rate.steps_in_period() {
        ends[place as usize] = end_of(rate, place);
    }
    ends
}

impl PeriodTable {
    pub(crate) fn new(rate: Rate) -> PeriodTable
        ensures { IsPeriodTable rate result.words result.ends }
    {
        PeriodTable {
            words: all_words(rate),
            ends: all_ends(rate),
        }
    }

    // What is sent of eight steps, and the place in the period after them.
    pub(crate) fn punctured(&self, rate: Rate, start: u8, x: u8, y: u8) -> (Bits, u8)
        requires table { IsPeriodTable rate self.now.words self.now.ends }
        requires place { start < steps_in_period rate }
        ensures bits { (t : ℕ) → start ≡ t % steps_in_period rate → spelled result.0.count result.0.word
            ≡ bits_of_steps rate t (spelled 8 x) (spelled 8 y) }
        ensures few { result.0.count ≤ 16 }
        ensures within { result.1 < steps_in_period rate }
        ensures next { (t : ℕ) → start ≡ t % steps_in_period rate → result.1 ≡ (t + 8) % steps_in_period rate }
    {
        let first = 256 * start as usize;
        let (count, next) = self.ends[start as usize];
        let word = self.words[first + x as usize].0 | self.words[first + y as usize].1;
        (Bits { word, count }, next)
    }
}

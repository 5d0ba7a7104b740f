// Counts of received words.
ghost use Rattle.std.specs.Prelude.{◌≡◌, ◌+◌, ◌≤◌, ◌^◌, ℕ};
ghost use Rattle.measure_words.specs.Sums.{counted, no_sums, AreFew};

use rs204::Outcome;

/// Counts of received words.
#[derive(Clone, Copy, Debug, Default, Drop, PartialEq, Eq)]
pub struct WordSums {
    /// The words.
    pub words: u64,
    /// Those that were codewords.
    pub clean: u64,
    /// Those with one to eight wrong bytes, which were corrected.
    pub corrected: u64,
    /// Those without a nearest codeword.
    pub bad: u64,
    /// Those without a phase.
    pub unphased: u64,
    /// The bits in which the corrected words differ from their codewords.
    pub repaired: u64,
}

impl WordSums {
    /// The counts of no word.
    pub(crate) fn none() -> WordSums
        ensures is { result ≡ no_sums }
        ensures few { AreFew result 0 }
    {
        WordSums {
            words: 0,
            clean: 0,
            corrected: 0,
            bad: 0,
            unphased: 0,
            repaired: 0,
        }
    }

    /// Counts a word.
    pub(crate) fn count(&mut self, outcome: Outcome, phased: bool, repaired: u64)
        requires repaired { repaired ≤ 1632 }
        requires few { AreFew self.old (2 ^ 50) }
        ensures few { (n : ℕ) → AreFew self.old n → AreFew self.new (n + 1) }
        ensures counted { self.new ≡ counted self.old outcome phased repaired }
    {
        self.words += 1;
        self.repaired += repaired;
        if !phased {
            self.unphased += 1;
        }
        match outcome {
            Outcome::Clean => self.clean += 1,
            Outcome::Corrected(_) => self.corrected += 1,
            Outcome::Bad => self.bad += 1,
        }
    }
}

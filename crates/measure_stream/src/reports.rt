// The reports of a stream.
ghost use Rattle.std.specs.Prelude.{◌≡◌, ◌+◌, ◌*◌, ◌<◌, ◌≤◌, ◌^◌, ◌++◌, [], ℕ, List, All, true, false, length};
ghost use Rattle.mode_set.specs.declared.modes.Stream.{Stream as AnyStream};
ghost use Rattle.mode_set.specs.declared.settings.Settings.{Settings as AnySettings};
ghost use Rattle.symbol_parameters.specs.Spans.{steps_before};
ghost use Rattle.measure_stream.specs.Reports.{AreCounted, LieIn, AreFew, no_reports};

/// The unmerged reports of the decoder of a stream: all of them, those of the current super-frame, and those after it.
#[derive(Clone, Copy, Debug, Drop, PartialEq, Eq)]
pub struct ReportCounts {
    /// All reports.
    pub all: u64,
    /// Those of the current super-frame.
    pub current: u64,
    /// Those after it.
    pub later: u64,
}

/// Adds to the counts of the current super-frame, or to those after it.
fn add_apart(number: u64, within: bool, current: &mut u64, later: &mut u64)
    requires current { current.old + number < 2 ^ 62 }
    requires later { later.old + number < 2 ^ 62 }
    ensures current { current.new ≤ current.old + number }
    ensures later { later.new ≤ later.old + number }
    ensures within { within ≡ true → (current.new ≡ current.old + number) × (later.new ≡ later.old) }
    ensures after { within ≡ false → (current.new ≡ current.old) × (later.new ≡ later.old + number) }
{
    if within {
        *current += number;
    } else {
        *later += number;
    }
}

impl ReportCounts {
    /// No report.
    pub fn none() -> ReportCounts
        ensures is { result ≡ no_reports }
    {
        ReportCounts {
            all: 0,
            current: 0,
            later: 0,
        }
    }

    /// Counts the reports of a symbol, which is of the current super-frame or after it.
    pub fn count(&mut self, number: u64, within: bool)
        requires number { number ≤ 16 }
        requires few { AreFew self.old (2 ^ 60) }
        ensures few { (n : ℕ) → AreFew self.old n → AreFew self.new (n + 16) }
        ensures counted { (s : AnySettings) (σ : AnyStream) (j before after : ℕ) (reports more : List ℕ)
            → AreCounted self.old s σ j reports → length more ≡ number → All (λ at. (before < at) × (at ≤ after)) more
            → LieIn within s σ j before after → AreCounted self.new s σ j (reports ++ more) }
    {
        self.all += number;
        add_apart(number, within, &mut self.current, &mut self.later);
    }

    /// Passes on to the next super-frame: the reports that were counted after the current one are its first ones.
    pub fn advance(&mut self)
        ensures few { (n : ℕ) → AreFew self.old n → AreFew self.new n }
        ensures counted { (s : AnySettings) (σ : AnyStream) (j : ℕ) (reports : List ℕ)
            → AreCounted self.old s σ j reports → All (λ at. at ≤ steps_before s σ (272 * (j + 2))) reports
            → AreCounted self.new s σ (j + 1) reports }
    {
        self.current = self.later;
        self.later = 0;
    }
}

// The outcomes of words, and how many words have each.
ghost use Rattle.std.specs.Prelude.{◌≡◌, ◌+◌, ◌<◌, ◌≤◌, ◌^◌, not, cond};
ghost use Rattle.rescue_words.specs.Recovering.{AreFit, counted, is_clean_kind, is_corrected_kind, is_rescued_kind};
ghost use Rattle.rescue_words.specs.Recovering.{is_bad_kind};

/// The outcome of a received word.
#[derive(Clone, Copy, Debug, Drop, PartialEq, Eq)]
pub enum WordKind {
    /// It was a codeword.
    Clean,
    /// It had one to eight wrong bytes, all corrected.
    Corrected,
    /// It had no nearest codeword, but erasing its eight bytes of least margin found one.
    Rescued,
    /// None of these.
    Bad,
}

/// The counts of the words of one stream.
#[derive(Clone, Copy, Debug, Default, Drop, PartialEq, Eq)]
pub struct RescueCounts {
    /// The received outer words, without those of the start-up.
    pub words: u64,
    /// Those that were codewords.
    pub clean: u64,
    /// Those with one to eight wrong bytes, all corrected.
    pub corrected: u64,
    /// Those without a nearest codeword that were recovered by erasing their eight bytes of least margin.
    pub rescued: u64,
    /// Those that were not.
    pub bad: u64,
    /// Those without a phase, which gave no packet.
    pub unphased: u64,
}

/// The counts of no word.
pub(crate) fn no_counts() -> RescueCounts
    ensures none { result ≡ record { words = 0; clean = 0; corrected = 0; rescued = 0; bad = 0; unphased = 0 } }
    ensures fit { AreFit result }
{
    RescueCounts {
        words: 0,
        clean: 0,
        corrected: 0,
        rescued: 0,
        bad: 0,
        unphased: 0,
    }
}

/// A one for the kind of a word: clean, corrected, rescued, bad.
fn kinds(kind: WordKind) -> (u64, u64, u64, u64)
    ensures clean { result.0 ≡ cond (is_clean_kind kind) 1 0 }
    ensures corrected { result.1 ≡ cond (is_corrected_kind kind) 1 0 }
    ensures rescued { result.2 ≡ cond (is_rescued_kind kind) 1 0 }
    ensures bad { result.3 ≡ cond (is_bad_kind kind) 1 0 }
    ensures one { result.0 + result.1 + result.2 + result.3 ≡ 1 }
{
    match kind {
        WordKind::Clean => (1, 0, 0, 0),
        WordKind::Corrected => (0, 1, 0, 0),
        WordKind::Rescued => (0, 0, 1, 0),
        WordKind::Bad => (0, 0, 0, 1),
    }
}

/// One if there is no phase.
fn without(phased: bool) -> u64
    ensures is { result ≡ cond (not phased) 1 0 }
    ensures small { result ≤ 1 }
{
    if phased { 0 } else { 1 }
}

/// Counts a word.
pub(crate) fn count(counts: &mut RescueCounts, kind: WordKind, phased: bool)
    requires few { counts.old.words < 2 ^ 62 }
    requires fit { AreFit counts.old }
    ensures fit { AreFit counts.new }
    ensures more { counts.new.words ≡ counts.old.words + 1 }
    ensures counted { counts.new ≡ counted counts.old kind phased }
{
    let (clean, corrected, rescued, bad) = kinds(kind);
    counts.words += 1;
    counts.clean += clean;
    counts.corrected += corrected;
    counts.rescued += rescued;
    counts.bad += bad;
    counts.unphased += without(phased);
}

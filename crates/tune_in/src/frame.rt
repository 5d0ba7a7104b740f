// A found frame, and what its votes announce.
ghost use Rattle.std.specs.Prelude.{◌≡◌, ◌^◌, ◌<◌, ◌≤◌, IfSome, None};
ghost use Rattle.tps_word.specs.declared.word.TpsWord.{TpsWord as Word};
ghost use Rattle.tune_in.specs.Places.{Announces, begin};

use mode_set::Mode;
use tps_word::TpsWord;

/// A found frame and the fields that it signals.
#[derive(Clone, Copy, Debug, PartialEq, Eq)]
pub struct Found {
    /// The number of the frame's first symbol, from 0.
    pub place: u64,
    /// The fields of the frame's TPS word, after error correction.
    pub word: TpsWord,
}

/// The number of the first symbol of the super-frame after the found frame's: from it on the announced parameters are
/// valid (EN 300 744, 4.6.2). The place is below 2^32 and the frame 1 to 4, as for each frame that a `Tuner` finds.
pub fn begin(found: &Found) -> u64
    requires place { found.now.place < 2 ^ 32 }
    requires first { 1 ≤ found.now.word.frame }
    requires last { found.now.word.frame ≤ 4 }
    ensures { result ≡ begin found.now }
{
    found.place + 68 * u64::from(5 - found.word.frame)
}

// The fields, if they are of the mode.
fn of_mode(word: TpsWord, mode: Mode) -> Option<TpsWord>
    ensures some { IfSome result (λ w. (w ≡ word) × (word.mode ≡ mode)) }
    ensures none { result ≡ None → word.mode ≡ mode → ⊥ }
{
    if word.mode == mode { Some(word) } else { None }
}

/// The fields announced by the 67 votes of a frame, if any.
pub(crate) fn announced_by(mode: Mode, votes: &[bool; 67]) -> Option<TpsWord>
    ensures some { IfSome result (λ w. Announces mode votes.now w) }
    ensures none { result ≡ None → (w : Word) → Announces mode votes.now w → ⊥ }
{
    let word = TpsWord::nearest(votes)?;
    of_mode(word, mode)
}

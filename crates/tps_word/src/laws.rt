// What is written is read back, and bits signal at most one set of fields.
ghost use Rattle.std.specs.Prelude.{◌≡◌, Some, Option};
ghost use Rattle.tps_word.specs.Tps.{IsValid, ReadsAs, tps_word};
ghost use Rattle.tps_word.specs.Signals.{OneSignalled};
ghost use Rattle.tps_word.specs.declared.word.TpsWord.{TpsWord as Word};

use tps_bch::words_are_apart;

/// The word of valid fields is read as exactly these fields.
pub fn words_are_read_back()
    ensures { (t : Word) → IsValid t → (answer : Option Word) → ReadsAs (tps_word t) answer → answer ≡ Some t }
{}

/// Bits with at most two errors signal one set of fields.
pub fn one_word_is_signalled()
    ensures { OneSignalled }
{
    words_are_apart();
}

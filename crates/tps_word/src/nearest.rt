// The word signalled by bits with some errors.
ghost use Rattle.std.specs.Prelude.{◌≡◌, IfSome, IsTrue, Some, take};
ghost use Rattle.tps_bch.specs.Bch.{bit_distance};
ghost use Rattle.tps_word.specs.Tps.{sync_word};
ghost use Rattle.tps_word.specs.Signals.{Signals};
ghost use Rattle.tps_word.specs.declared.word.TpsWord.{TpsWord as Word};

use crate::TpsWord;
use crate::fields::sync_digits;
use tps_bch::{TpsOutcome, correct};

// The most errors that are corrected.
const CORRECTED: u8 = 2;

// The bits of a sync word.
const SYNC: u8 = 16;

// The number of bits where the first ones differ from the sync word of frames 1 and 3.
fn sync_errors(bits: &[bool; 67]) -> u8
    ensures { result ≡ bit_distance (take 16 bits.now) (sync_word 1) }
{
    let mut errors = 0;
    for (i, digit) in sync_digits(1).iter().enumerate() {
        errors += u8::from(bits[i] ^ (*digit == b'1'));
    }
    errors
}

// Whether the first bits are close enough to a sync word to signal a word. The sync word of frames 2 and 4 is the
// complement of the other.
fn may_signal(bits: &[bool; 67]) -> bool
    ensures { (t : Word) → Signals bits.now t → IsTrue result }
{
    let errors = sync_errors(bits);
    errors <= CORRECTED || errors >= SYNC - CORRECTED
}

impl TpsWord {
    /// The fields that bits s1 to s67 signal with at most two errors: those of the word of the code within distance 2,
    /// if they are valid. Bits without a sync word within two errors are cheap to reject.
    pub fn nearest(bits: &[bool; 67]) -> Option<TpsWord>
        ensures signalled { IfSome result (λ t. Signals bits.now t) }
        ensures found { (t : Word) → Signals bits.now t → result ≡ Some t }
    {
        if !may_signal(bits) {
            return None;
        }
        let mut word = *bits;
        match correct(&mut word) {
            TpsOutcome::Unreadable => None,
            TpsOutcome::Read(_) => TpsWord::read(&word),
        }
    }
}

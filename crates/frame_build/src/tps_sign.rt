// The sign of a symbol's TPS cells.
ghost use Rattle.std.specs.Prelude.{◌≡◌, ◌%◌, ◌<◌, IsTrue};
ghost use Rattle.tps_word.specs.Tps.{IsValid, signalled, tps_word};
ghost use Rattle.frame_build.specs.Symbol.{frame_of};
ghost use Rattle.frame_build.specs.State.{is_turned};

use mode_set::Settings;
use tps_word::TpsWord;

// Whether the first `count` bits of a TPS word turn the sign of the TPS cells.
pub(crate) fn turned_by(word: &[bool; 67], count: u16) -> bool
    requires { count < 68 }
    ensures { result ≡ is_turned word.now count }
{
    let mut turned = false;
    for l in 0..count as usize {
        turned ^= word[l];
    }
    turned
}

// Whether the bits before symbol `number` in the TPS word of its frame turn the sign of the TPS cells.
pub(crate) fn turned_at(settings: &Settings, number: u16) -> bool
    requires { number < 272 }
    ensures { result ≡ is_turned (tps_word (signalled settings.now (frame_of number))) (number % 68) }
{
    let word = TpsWord::signalled(settings, (number / 68) as u8 + 1).write();
    turned_by(&word, number % 68)
}

// The bits of a TPS word. They are kept from symbol to symbol, since all symbols of a frame send bits of one word.
#[derive(Drop)]
pub(crate) struct FrameWord {
    fields: TpsWord,
    pub bits: [bool; 67],
    ghost is: { bits ≡ tps_word fields },
}

// Whether two words have the same fields.
fn are_same(one: &TpsWord, other: &TpsWord) -> bool
    ensures { IsTrue result → one.now ≡ other.now }
{
    if one.frame != other.frame || one.with_cell != other.with_cell {
        return false;
    }
    if one.shape != other.shape || one.hierarchy != other.hierarchy {
        return false;
    }
    if one.rate_hp != other.rate_hp || one.rate_lp != other.rate_lp {
        return false;
    }
    if one.guard != other.guard || one.mode != other.mode {
        return false;
    }
    one.cell_byte == other.cell_byte
}

impl FrameWord {
    pub(crate) fn new(fields: TpsWord) -> FrameWord
        requires { IsValid fields }
        ensures { result.bits ≡ tps_word fields }
    {
        FrameWord {
            fields,
            bits: fields.write(),
        }
    }

    // Turns to a word. Its bits are made anew only where it is another.
    pub(crate) fn turn_to(&mut self, fields: TpsWord)
        requires { IsValid fields }
        ensures { self.new.bits ≡ tps_word fields }
    {
        if are_same(&self.fields, &fields) {
            return;
        }
        *self = FrameWord::new(fields);
    }
}

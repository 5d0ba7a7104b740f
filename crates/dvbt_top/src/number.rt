// A number as an argument.
ghost use Rattle.std.specs.Prelude.{◌≡◌, ◌==◌, slice_index};
ghost use Rattle.dvbt_top.specs.Number as spelled;

/// The most digits of a number.
const MOST_DIGITS: usize = 10;

/// The number of an argument: one to ten decimal digits with a value of at most 4294967295.
pub(crate) fn number_of(word: &str) -> Option<u32>
    ensures { result ≡ spelled.number_of word.now }
{
    if word.len() > MOST_DIGITS {
        return None;
    }
    if has_plus(word) {
        return None;
    }
    word.parse().ok()
}

// Whether it begins with a plus, which `parse` would accept.
fn has_plus(word: &str) -> bool
    ensures { result ≡ (slice_index word.now 0 == 0x2B) }
{
    word.as_bytes().first() == Some(&b'+')
}

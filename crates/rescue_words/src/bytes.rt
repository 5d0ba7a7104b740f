// The margins of bytes, from those of their bits.
ghost use Rattle.std.specs.Prelude.{◌≡◌, ◌+◌, ◌*◌, ◌/◌, ◌<◌, ◌≤◌, ◌++◌, length, vec_len, vec_capacity};
ghost use Rattle.rescue_words.specs.ByteMargins.{byte_margin, byte_margins};

/// The least margin of the eight bits of byte k.
fn least_of_byte(margins: &[u32], k: usize) -> u32
    requires { 8 * k + 7 < length margins.now }
    ensures { result ≡ byte_margin margins.now k }
{
    let first = 8 * k;
    margins[first].min(margins[first + 1].min(margins[first + 2].min(margins[first + 3].min(
        margins[first + 4].min(margins[first + 5].min(margins[first + 6].min(margins[first + 7]))),
    ))))
}

/// Appends the margins of the whole bytes of bits with these margins, for which there is room: the margin of a byte is
/// the least of its eight bits.
pub fn push_byte_margins(margins: &[u32], to: &mut Vec<u32>)
    requires spare { vec_len to.old + length margins.now / 8 ≤ vec_capacity to.old }
    ensures margins { to.new.items ≡ to.old.items ++ byte_margins margins.now }
    ensures amount { vec_len to.new ≡ vec_len to.old + length margins.now / 8 }
    ensures capacity { vec_capacity to.new ≡ vec_capacity to.old }
{
    for k in 0..margins.len() / 8 {
        to.push_reserved(least_of_byte(margins, k));
    }
}

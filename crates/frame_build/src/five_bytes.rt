// The bytes of a cell.
ghost use Rattle.std.specs.Prelude.{◌≡◌, ◌+◌, ◌*◌, ◌++◌, ◌≤◌, length, take, vec_len, vec_capacity};
ghost use Rattle.frame_build.specs.Symbol.{cell_bytes};

use byteorder::{BigEndian, ByteOrder};
use qam_map::Cell;

/// The five bytes of a cell in a cell file: the real and the imaginary part, each with its high byte first,
/// and the weight.
#[tactic(auto, unfolding(crate::specs::Symbol::cell_bytes))]
pub fn cell_bytes(cell: Cell, weight: u8) -> [u8; 5]
    ensures { result ≡ cell_bytes cell weight }
{
    let mut bytes = [0; 5];
    BigEndian::write_i16(&mut bytes, cell.re);
    BigEndian::write_i16(&mut bytes[2..], cell.im);
    bytes[4] = weight;
    bytes
}

/// Appends the five bytes of a cell. The spare of `to` has room for them, so no memory is taken.
pub fn push_five(bytes: [u8; 5], to: &mut Vec<u8>)
    requires { vec_len to.old + 5 ≤ vec_capacity to.old }
    ensures bytes { to.new.items ≡ to.old.items ++ bytes }
    ensures len { vec_len to.new ≡ vec_len to.old + 5 }
    ensures capacity { vec_capacity to.new ≡ vec_capacity to.old }
{
    to.push_reserved(bytes[0]);
    to.push_reserved(bytes[1]);
    to.push_reserved(bytes[2]);
    to.push_reserved(bytes[3]);
    to.push_reserved(bytes[4]);
}

// Puts the five bytes of cell `k` in the place of those that stand there.
pub(crate) fn put_five(bytes: [u8; 5], to: &mut [u8], k: usize)
    requires room { 5 * k + 5 ≤ length to.old }
    ensures long { length to.new ≡ length to.old }
    ensures bytes { take (5 * (k + 1)) to.new ≡ take (5 * k) to.old ++ bytes }
{
    to[5 * k..5 * k + 5].copy_from_slice(&bytes);
}

// Puts eight bytes from the first of cell `k` on, of which the first five are its own. The other three belong to the
// cell after it, which is put next.
pub(crate) fn put_eight(bytes: [u8; 8], to: &mut [u8], k: usize)
    requires room { 5 * k + 8 ≤ length to.old }
    ensures long { length to.new ≡ length to.old }
    ensures bytes { take (5 * (k + 1)) to.new ≡ take (5 * k) to.old ++ take 5 bytes }
{
    to[5 * k..5 * k + 8].copy_from_slice(&bytes);
}

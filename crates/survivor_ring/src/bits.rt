// Words of states, and bits given to a queue.
ghost use Rattle.std.specs.Prelude.{◌≡◌, ◌≢◌, ◌+◌, ◌*◌, ◌/◌, ◌%◌, ◌<◌, ◌≤◌, ◌++◌, length, take, IsTrue};
ghost use Rattle.spec_words.specs.Bits.{is_set, spelled};
ghost use Rattle.bit_pack.specs.Queue.{bits_of_bytes};

use bit_pack::WaitBuf;

/// The lowest alive state.
pub(crate) fn lowest(states: u64) -> usize
    requires { states ≢ 0 }
    ensures below { result < 64 }
    ensures lives { IsTrue (is_set states result) }
{
    states.trailing_zeros() as usize
}

/// Whether a state is alive.
pub(crate) fn is_alive(states: u64, n: usize) -> bool
    requires { n < 64 }
    ensures { result ≡ is_set states n }
{
    (states >> n) & 1 == 1
}

/// Eight bits as a byte, first bit most significant.
fn byte_of(bits: &[bool]) -> u8
    requires { length bits.now ≡ 8 }
    ensures { spelled 8 result ≡ bits.now }
{
    let mut byte = 0u8;
    for k in 0..8usize {
        byte = byte << 1 | bits[k] as u8;
    }
    byte
}

/// Appends the first bits of a row, eight by eight.
fn append_bytes(row: &[bool], number: usize, to: &mut WaitBuf)
    requires row { 8 * number ≤ length row.now }
    requires room { length to.old + 8 * number ≤ 36864 }
    ensures { to.new ≡ to.old ++ take (8 * number) row.now }
{
    for k in 0..number {
        to.push_byte(byte_of(&row[8 * k..8 * k + 8]));
    }
}

/// Appends bits one by one.
fn append_bits(bits: &[bool], to: &mut WaitBuf)
    requires { length to.old + length bits.now ≤ 36864 }
    ensures { to.new ≡ to.old ++ bits.now }
{
    for k in 0..bits.len() {
        to.push_bit(bits[k]);
    }
}

/// Appends the first bits of a row.
pub(crate) fn append(row: &[bool], count: usize, to: &mut WaitBuf)
    requires row { count ≤ length row.now }
    requires room { length to.old + count ≤ 36864 }
    ensures { to.new ≡ to.old ++ take count row.now }
{
    let number = count / 8;
    append_bytes(row, number, to);
    append_bits(&row[8 * number..count], to);
}

/// Appends the bits of the first bytes.
fn append_whole(bytes: &[u8; 257], number: usize, to: &mut WaitBuf)
    requires few { number ≤ 257 }
    requires room { length to.old + 8 * number ≤ 36864 }
    ensures bits { to.new ≡ to.old ++ take (8 * number) (bits_of_bytes bytes.now) }
    ensures amount { length to.new ≡ length to.old + 8 * number }
{
    to.push_bytes(&bytes[..number]);
}

/// Appends the first bits of a byte.
fn append_first(byte: u8, count: usize, to: &mut WaitBuf)
    requires few { count ≤ 8 }
    requires room { length to.old + count ≤ 36864 }
    ensures bits { to.new ≡ to.old ++ take count (spelled 8 byte) }
    ensures amount { length to.new ≡ length to.old + count }
{
    for k in 0..count {
        to.push_bit((byte >> (7 - k)) & 1 == 1);
    }
}

/// Appends the first bits of bytes.
pub(crate) fn append_traced(bytes: &[u8; 257], count: usize, to: &mut WaitBuf)
    requires few { count < 2056 }
    requires room { length to.old + count ≤ 36864 }
    ensures bits { to.new ≡ to.old ++ take count (bits_of_bytes bytes.now) }
    ensures amount { length to.new ≡ length to.old + count }
{
    append_whole(bytes, count / 8, to);
    append_first(bytes[count / 8], count % 8, to);
}

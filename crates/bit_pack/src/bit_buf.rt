// The queue of bits.
ghost use Rattle.std.specs.Prelude.{◌≡◌, ◌+◌, ◌*◌, ◌<◌, ◌≤◌, ◌^◌, ℕ, Bool, List, [], ◌∷◌, ◌++◌, ◌-◌, ◌%◌, length};
ghost use Rattle.std.specs.Prelude.{IsNone, IfSome, ◌↔◌};
ghost use Rattle.spec_words.specs.Bits.{is_set, spelled};
ghost use Rattle.bit_pack.specs.Queue.{bits_of_bytes, ring};

use std::marker::Model;

/// A queue of at most `8 * N` bits, seen as their list, next bit first.
///
/// All calls take constant time.
// The bits are the lowest `front_len` of `front`, those of `count` whole bytes in a ring, and the lowest `back_len` of
// `back`, each most significant first. Higher bits of `front` and `back` mean nothing.
#[derive(Drop)]
pub struct BitBuf<const N: usize> {
    bytes: [u8; N],
    first: usize,
    count: usize,
    front: u8,
    front_len: u8,
    back: u8,
    back_len: u8,
}

/// The pending bits of a stream, to be taken as bytes: at most 36,864.
pub type WaitBuf = BitBuf<4608>;

impl<const N: usize> Model for BitBuf<N> {
    ghost use Rattle.std.specs.Prelude.{Bool, List, ◌++◌};
    ghost use Rattle.bit_pack.specs.Queue.{IsSized, queue};

    ghost Value = { List Bool };

    ghost view = { λ b. queue b.bytes b.first b.count b.front b.front_len b.back b.back_len };

    ghost invariant = { λ b. IsSized N b.first b.count b.front_len b.back_len };
}

/// The bits of one byte above the lowest `places` of another.
fn joined(high: u8, low: u8, places: u8) -> u16
    requires places { places < 9 }
    ensures { result ≡ high * 2 ^ places + low % 2 ^ places }
{
    (high as u16) << places | low as u16 & (1 << places) - 1
}

/// The first eight of the lowest `high_len` bits of `high` and the lowest `low_len` of `low`.
fn first_eight(high: u8, high_len: u8, low: u8, low_len: u8) -> u8
    requires high { high_len < 9 }
    requires low { low_len < 9 }
    requires enough { 8 ≤ high_len + low_len }
    ensures { spelled 8 result ++ spelled (high_len + low_len - 8) low ≡ spelled high_len high ++ spelled low_len low }
{
    (joined(high, low, low_len) >> (high_len + low_len - 8) & 0xFF) as u8
}

/// A byte shifted up by one, with a bit in the free place.
fn with_bit(byte: u8, bit: bool) -> u8
    ensures { (n : ℕ) → n < 8 → spelled (n + 1) result ≡ spelled n byte ++ bit ∷ [] }
{
    byte << 1 | bit as u8
}

/// Bit `place` of a byte, bit 0 being the lowest.
fn bit_of(byte: u8, place: u8) -> bool
    requires { place < 8 }
    ensures { result ≡ is_set byte place }
{
    (byte >> place) & 1 == 1
}

/// Appends a byte to a ring that has room.
fn push_whole(bytes: &mut [u8], first: usize, count: usize, byte: u8)
    requires first { first ≤ length bytes.old }
    requires room { count < length bytes.old }
    requires few { length bytes.old ≤ 65536 }
    ensures size { length bytes.new ≡ length bytes.old }
    ensures pushed { ring bytes.new first (count + 1) ≡ ring bytes.old first count ++ byte ∷ [] }
{
    let place = first + count;
    let len = bytes.len();
    if place < len {
        bytes[place] = byte;
    } else {
        bytes[place - len] = byte;
    }
}

/// The first byte of a ring, and the index after it.
fn pop_whole(bytes: &[u8], first: usize) -> (u8, usize)
    requires some { 0 < length bytes.now }
    requires first { first ≤ length bytes.now }
    ensures within { result.1 ≤ length bytes.now }
    ensures popped { (count : ℕ) → count < length bytes.now → ring bytes.now first (count + 1) ≡ result.0
        ∷ ring bytes.now result.1 count }
{
    if first == bytes.len() {
        (bytes[0], 1)
    } else {
        (bytes[first], first + 1)
    }
}

/// Where a ring begins: an empty one at its least index.
fn first_of(first: usize, count: usize) -> usize
    ensures within { result ≤ first }
    ensures same { (bytes : List ℕ) → ring bytes result count ≡ ring bytes first count }
{
    if count == 0 { 0 } else { first }
}

/// The bytes of a part of a ring that does not wrap at its end.
fn copy_part(bytes: &[u8], first: usize, to: &mut [u8])
    requires room { first + length to.old ≤ length bytes.now }
    ensures size { length to.new ≡ length to.old }
    ensures popped { (count : ℕ) → length to.old ≤ count → ring bytes.now first count ≡ to.new
        ++ ring bytes.now (first + length to.old) (count - length to.old) }
{
    to.copy_from_slice(&bytes[first..first + to.len()]);
}

/// Appends bytes to those of a ring, if they do not wrap at its end.
fn paste_part(bytes: &mut [u8], first: usize, count: usize, part: &[u8])
    requires room { first + count + length part.now ≤ length bytes.old }
    ensures size { length bytes.new ≡ length bytes.old }
    ensures pushed { ring bytes.new first (count + length part.now) ≡ ring bytes.old first count ++ part.now }
{
    bytes[first + count..first + count + part.len()].copy_from_slice(part);
}

/// Writes bytes whose first bits are the lowest `back_len` of `back`, each byte's bits after those of the one before.
/// Returns the byte whose lowest `back_len` bits are left.
fn shift_part(back: u8, back_len: u8, part: &[u8], to: &mut [u8]) -> u8
    requires few { back_len < 8 }
    requires size { length to.old ≡ length part.now }
    ensures size { length to.new ≡ length to.old }
    ensures bits { spelled back_len back ++ bits_of_bytes part.now ≡ bits_of_bytes to.new ++ spelled back_len result }
{
    let mut last = back;
    for k in 0..part.len() {
        let byte = part[k];
        to[k] = first_eight(last, back_len, byte, 8);
        last = byte;
    }
    last
}

/// Appends bytes to those of a ring and the lowest `back_len` bits of `back`, if they do not wrap at its end. Returns
/// the byte whose lowest `back_len` bits are left.
fn paste_shifted(
    bytes: &mut [u8],
    first: usize,
    count: usize,
    back: u8,
    back_len: u8,
    part: &[u8],
) -> u8
    requires few { back_len < 8 }
    requires room { first + count + length part.now ≤ length bytes.old }
    ensures size { length bytes.new ≡ length bytes.old }
    ensures pushed { bits_of_bytes (ring bytes.new first (count + length part.now)) ++ spelled back_len result
        ≡ (bits_of_bytes (ring bytes.old first count) ++ spelled back_len back) ++ bits_of_bytes part.now }
{
    let place = first + count;
    shift_part(back, back_len, part, &mut bytes[place..place + part.len()])
}

impl<const N: usize> BitBuf<N> {
    /// The empty queue. `N` is at most 65,536.
    pub fn new() -> BitBuf<N>
        requires few { N ≤ 65536 }
        ensures empty { result ≡ [] }
    {
        BitBuf {
            bytes: [0; N],
            first: 0,
            count: 0,
            front: 0,
            front_len: 0,
            back: 0,
            back_len: 0,
        }
    }

    /// The number of bits in the queue.
    pub fn waiting(&self) -> usize
        ensures number { result ≡ length self.now }
        ensures few { result ≤ 8 * N }
    {
        self.front_len as usize + 8 * self.count + self.back_len as usize
    }

    /// Appends a bit. There must be room for it.
    pub fn push_bit(&mut self, bit: bool)
        requires room { length self.old < 8 * N }
        ensures bits { self.new ≡ self.old ++ bit ∷ [] }
        ensures amount { length self.new ≡ length self.old + 1 }
    {
        let byte = with_bit(self.back, bit);
        self.back = byte;
        if self.back_len < 7 {
            self.back_len += 1;
        } else {
            push_whole(&mut self.bytes, self.first, self.count, byte);
            self.count += 1;
            self.back_len = 0;
        }
    }

    /// Appends the eight bits of a byte, most significant first. There must be room for them.
    pub fn push_byte(&mut self, byte: u8)
        requires room { length self.old + 8 ≤ 8 * N }
        ensures bits { self.new ≡ self.old ++ spelled 8 byte }
        ensures amount { length self.new ≡ length self.old + 8 }
    {
        let whole = first_eight(self.back, self.back_len, byte, 8);
        push_whole(&mut self.bytes, self.first, self.count, whole);
        self.count += 1;
        self.back = byte;
    }

    // Appends bytes, one by one.
    fn push_each(&mut self, bytes: &[u8])
        requires room { length self.old + 8 * length bytes.now ≤ 8 * N }
        ensures { self.new ≡ self.old ++ bits_of_bytes bytes.now }
    {
        for byte in bytes {
            self.push_byte(*byte);
        }
    }

    // Appends the bits of bytes, at once if they do not wrap at the end of the ring.
    fn push_shifted(&mut self, bytes: &[u8])
        requires room { length self.old + 8 * length bytes.now ≤ 8 * N }
        ensures { self.new ≡ self.old ++ bits_of_bytes bytes.now }
    {
        if self.first + self.count + bytes.len() <= N {
            self.back = paste_shifted(
                &mut self.bytes,
                self.first,
                self.count,
                self.back,
                self.back_len,
                bytes,
            );
            self.count += bytes.len();
        } else {
            self.push_each(bytes);
        }
    }

    /// Appends the bits of bytes. There must be space for them.
    pub fn push_bytes(&mut self, bytes: &[u8])
        requires room { length self.old + 8 * length bytes.now ≤ 8 * N }
        ensures bits { self.new ≡ self.old ++ bits_of_bytes bytes.now }
        ensures amount { length self.new ≡ length self.old + 8 * length bytes.now }
    {
        if self.back_len == 0 && self.first + self.count + bytes.len() <= N {
            paste_part(&mut self.bytes, self.first, self.count, bytes);
            self.count += bytes.len();
        } else {
            self.push_shifted(bytes);
        }
    }

    // Takes the first eight bits of at least as many out.
    fn take_one(&mut self) -> u8
        requires { 8 ≤ length self.old }
        ensures { self.old ≡ spelled 8 result ++ self.new }
    {
        self.take_byte().unwrap()
    }

    // Takes bytes out one by one.
    fn take_each(&mut self, to: &mut [u8])
        requires { 8 * length to.old ≤ length self.old }
        ensures size { length to.new ≡ length to.old }
        ensures taken { self.old ≡ bits_of_bytes to.new ++ self.new }
    {
        for byte in to.iter_mut() {
            *byte = self.take_one();
        }
    }

    /// Takes the first bits out and writes them as bytes, the first one of each the most significant. As many must
    /// wait as the bytes have.
    pub fn take_bytes(&mut self, to: &mut [u8])
        requires { 8 * length to.old ≤ length self.old }
        ensures size { length to.new ≡ length to.old }
        ensures taken { self.old ≡ bits_of_bytes to.new ++ self.new }
    {
        if self.front_len == 0 && to.len() <= self.count && self.first + to.len() <= N {
            copy_part(&self.bytes, self.first, to);
            self.first += to.len();
            self.count -= to.len();
            self.first = first_of(self.first, self.count);
        } else {
            self.take_each(to);
        }
    }

    /// Takes the first bit out and answers it: None exactly where no bit waits, and then nothing changes.
    pub fn take_bit(&mut self) -> Option<bool>
        ensures none { IsNone result ↔ (length self.old < 1) }
        ensures unchanged { IsNone result → self.new ≡ self.old }
        ensures taken { IfSome result (λ b. self.old ≡ b ∷ self.new) }
        ensures amount { IfSome result (λ b. length self.old ≡ length self.new + 1) }
    {
        if self.front_len > 0 {
            self.front_len -= 1;
            return Some(bit_of(self.front, self.front_len));
        }
        if self.count > 0 {
            let (byte, next) = pop_whole(&self.bytes, self.first);
            self.first = next;
            self.count -= 1;
            self.front = byte;
            self.front_len = 7;
            return Some(bit_of(byte, 7));
        }
        if self.back_len > 0 {
            self.back_len -= 1;
            return Some(bit_of(self.back, self.back_len));
        }
        None
    }

    /// Removes the first eight bits and returns them as a byte, first bit most significant; None exactly if there are
    /// fewer than eight, and then nothing changes.
    pub fn take_byte(&mut self) -> Option<u8>
        ensures none { IsNone result ↔ (length self.old < 8) }
        ensures unchanged { IsNone result → self.new ≡ self.old }
        ensures taken { IfSome result (λ b. self.old ≡ spelled 8 b ++ self.new) }
        ensures amount { IfSome result (λ b. length self.old ≡ length self.new + 8) }
    {
        if self.count > 0 {
            let (byte, next) = pop_whole(&self.bytes, self.first);
            self.first = next;
            self.count -= 1;
            let whole = first_eight(self.front, self.front_len, byte, 8);
            self.front = byte;
            return Some(whole);
        }
        let waiting = self.front_len + self.back_len;
        if waiting < 8 {
            return None;
        }
        let whole = first_eight(self.front, self.front_len, self.back, self.back_len);
        self.front = self.back;
        self.front_len = waiting - 8;
        self.back_len = 0;
        Some(whole)
    }
}

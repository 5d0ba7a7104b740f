// Random values from a number.
ghost use Rattle.std.specs.Prelude.{◌≡◌, ◌≤◌, nat_abs};
ghost use Rattle.load_gen.specs.Draws.{generator, after, word, count_of, shift_of, piece_of, packet_of, burst_length};
ghost use Rattle.load_gen.specs.Draws.{burst_mask};

use rand_core::utils::{NextWord, fill_bytes_via_u32};
use rand_pcg::Lcg64Xsh32;
use std::marker::Model;
use ts_packet::{PACKET_LEN, Packet, SYNC};

/// The generator's stream.
const STREAM: u64 = 1;

/// A run of bytes to change.
#[derive(Clone, Copy, Debug, Drop, PartialEq, Eq)]
pub struct Burst {
    /// The number of bytes, 1 to 96.
    pub len: u8,
    /// The mask to XOR onto each, 1 to 255.
    pub mask: u8,
}

/// Random values from a number, by the words of a PCG generator (XSH RR 64/32) in order. Contracts see the generator,
/// its state and its increment.
#[derive(Drop)]
pub struct Load {
    words: Lcg64Xsh32,
}

impl Model for Load {
    ghost use Rattle.rand_pcg.specs.Lcg.{Lcg};

    ghost Value = { Lcg };

    ghost view = { λ l. l.words };
}

impl Load {
    /// The load of this number, before its first word.
    pub fn start(number: u32) -> Load
        ensures start { result ≡ generator number }
    {
        Load {
            words: Lcg64Xsh32::new(u64::from(number), STREAM),
        }
    }

    /// A count of packets, from 100 to 199. Takes one word.
    pub fn count(&mut self) -> u32
        ensures value { result ≡ count_of self.old }
        ensures next { self.new ≡ after 1 self.old }
    {
        100 + self.draw() % 100
    }

    /// A shift of a cell's part, from `-delta` to `delta`, which is at most 5792. Takes one word.
    pub fn shift(&mut self, delta: u16) -> i16
        requires { delta ≤ 5792 }
        ensures value { result ≡ shift_of delta self.old }
        ensures within { nat_abs result ≤ delta }
        ensures next { self.new ≡ after 1 self.old }
    {
        let above = self.draw() % (2 * u32::from(delta) + 1);
        above as i16 - delta as i16
    }

    /// The length of the next piece of `rest` bytes: from 1 to 4096, at most `rest`, and 0 if `rest` is 0. Takes one
    /// word.
    pub fn piece(&mut self, rest: u32) -> u32
        ensures value { result ≡ piece_of rest self.old }
        ensures most { result ≤ rest }
        ensures least { 1 ≤ rest → 1 ≤ result }
        ensures next { self.new ≡ after 1 self.old }
    {
        rest.min(1 + self.draw() % 4096)
    }

    /// A packet without `transport_error_indicator`: after the sync byte the bytes of 47 words, least significant byte
    /// of each word first, without the last byte of the last word. Takes 47 words.
    pub fn packet(&mut self) -> Packet
        ensures value { result ≡ packet_of self.old }
        ensures next { self.new ≡ after 47 self.old }
    {
        let mut bytes = [SYNC; PACKET_LEN];
        fill_bytes_via_u32(&mut self.words, &mut bytes[1..]);
        bytes[1] &= 0x7F;
        match Packet::read(&bytes) {
            Ok(packet) => packet,
            Err(_) => unreachable!(),
        }
    }

    /// A burst: its length, and then its mask. Takes two words.
    pub fn burst(&mut self) -> Burst
        ensures len { result.len ≡ burst_length self.old }
        ensures mask { result.mask ≡ burst_mask self.old }
        ensures next { self.new ≡ after 2 self.old }
    {
        let first = self.draw();
        let second = self.draw();
        Burst {
            len: (1 + first % 96) as u8,
            mask: (1 + second % 255) as u8,
        }
    }

    // The next word.
    fn draw(&mut self) -> u32
        ensures value { result ≡ word self.old }
        ensures next { self.new ≡ after 1 self.old }
    {
        self.words.next_word()
    }
}

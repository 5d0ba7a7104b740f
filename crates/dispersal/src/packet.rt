// Dispersed packets.
ghost use Rattle.std.specs.Prelude.{◌≡◌, ◌<◌, ◌≤◌, ◌+◌, ◌*◌, ◌%◌, ◌-◌, ℕ, ◌∷◌, length, drop, slice_index};
ghost use Rattle.dispersal.specs.Sequence.{sequence_byte};
ghost use Rattle.dispersal.specs.Packet.{dispersed, undone, xor_from};

use crate::table::sequence;
use std::marker::Model;
use ts_packet::{PACKET_LEN, Packet, SYNC};

/// The sync byte of the first packet of a group of eight, inverted.
const INVERTED_SYNC: u8 = 0xB8;

/// The packets of a group.
const GROUP: u8 = 8;

/// Disperses the packets of a stream in order. Contracts see it as the phase of the next packet, its number in the
/// group of eight.
#[derive(Drop)]
pub struct Dispersal {
    phase: u8,
}

impl Model for Dispersal {
    ghost use Rattle.std.specs.Prelude.{◌<◌, ℕ};

    ghost Value = { ℕ };

    ghost view = { λ d. d.phase };

    ghost invariant = { λ d. d.phase < 8 };
}

// The bytes of the sequence from byte `start` on.
fn masks_from(start: usize) -> &'static [u8]
    requires { start ≤ 1503 }
    ensures bytes { (i : ℕ) → start + i < 1503 → slice_index result.now i ≡ sequence_byte (start + i) }
    ensures long { length result.now ≡ 1503 - start }
{
    &sequence()[start..]
}

// XORs each byte with one of the sequence, from byte `start` of it on.
fn mix(start: usize, bytes: &mut [u8])
    requires { start + length bytes.old ≤ 1503 }
    ensures { bytes.new ≡ xor_from start bytes.old }
{
    let masks = masks_from(start);
    for (i, byte) in bytes.iter_mut().enumerate() {
        *byte ^= masks[i];
    }
}

// The packet at this phase, after this first byte.
fn mixed(phase: u8, sync: u8, packet: &[u8; 188]) -> [u8; 188]
    requires { phase < 8 }
    ensures { result ≡ sync ∷ xor_from (188 * phase) (drop 1 packet.now) }
{
    let mut word = *packet;
    word[0] = sync;
    mix(PACKET_LEN * phase as usize, &mut word[1..]);
    word
}

// The first byte of a dispersed packet.
fn sync_of(phase: u8) -> u8
    ensures zero { phase ≡ 0 → result ≡ 0xB8 }
    ensures other { 0 < phase → result ≡ 0x47 }
{
    if phase == 0 { INVERTED_SYNC } else { SYNC }
}

impl Dispersal {
    /// Before the first packet of a stream, at phase 0.
    pub fn start() -> Dispersal
        ensures start { result ≡ 0 }
    {
        Dispersal { phase: 0 }
    }

    /// The packet as sent at this phase, 188 bytes. The phase then advances.
    pub fn apply(&mut self, packet: &Packet) -> [u8; 188]
        ensures word { result ≡ dispersed self.old packet.now }
        ensures next { self.new ≡ (self.old + 1) % 8 }
        ensures phase { self.old < 8 }
    {
        let word = mixed(self.phase, sync_of(self.phase), packet.bytes());
        self.phase = (self.phase + 1) % GROUP;
        word
    }
}

/// The packet that was dispersed at this phase, which is below 8. The word's first byte is ignored: the packet's is
/// 0x47.
pub fn undo(phase: u8, word: &[u8; 188]) -> Packet
    requires { phase < 8 }
    ensures undone { result ≡ undone phase word.now }
{
    match Packet::read(&mixed(phase, SYNC, word)) {
        Ok(packet) => packet,
        Err(_) => unreachable!(),
    }
}

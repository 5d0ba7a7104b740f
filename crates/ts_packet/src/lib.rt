//! Transport packets of 188 bytes (ISO/IEC 13818-1, 2.4.3.2).
#![tactic(auto)]

ghost use Rattle.std.specs.Prelude.{◌≡◌, ◌≢◌, ◌↔◌, ℕ, List, slice_index, IfOk, IsErr};
ghost use Rattle.ts_packet.specs.Packet.{IsPacket, marked, null_packet};

use std::marker::Model;

/// The bytes of a transport packet.
pub const PACKET_LEN: usize = 188;

/// The first byte of each transport packet, `sync_byte`.
pub const SYNC: u8 = 0x47;

/// The first byte is not the sync byte 0x47.
#[derive(Clone, Copy, Debug, PartialEq, Eq)]
pub struct NotSync;

/// A transport packet: 188 bytes, the first of them 0x47. Contracts see it as the list of its bytes.
#[derive(Drop)]
pub struct Packet {
    bytes: [u8; 188],
}

impl Model for Packet {
    ghost Value = { List ℕ };

    ghost view = { λ p. p.bytes };

    ghost invariant = { λ p. slice_index p.bytes 0 ≡ 0x47 };
}

impl Packet {
    /// The packet of these bytes. `NotSync` exactly if the first one is not 0x47.
    pub fn read(bytes: &[u8; 188]) -> Result<Packet, NotSync>
        ensures packet { IfOk result (λ p. p ≡ bytes.now) }
        ensures refused { IsErr result ↔ (slice_index bytes.now 0 ≢ 0x47) }
    {
        if bytes[0] != SYNC {
            return Err(NotSync);
        }
        Ok(Packet { bytes: *bytes })
    }

    /// The null packet: `47 1F FF 10` and 184 bytes FF.
    pub fn null() -> Packet
        ensures null { result ≡ null_packet }
    {
        let mut bytes = [0xFF; 188];
        bytes[0] = SYNC;
        bytes[1] = 0x1F;
        bytes[3] = 0x10;
        Packet { bytes }
    }

    /// The packet's bytes.
    pub fn bytes(&self) -> &[u8; 188]
        ensures bytes { result.now ≡ self.now }
        ensures packet { IsPacket result.now }
    {
        &self.bytes
    }

    /// Sets `transport_error_indicator`, bit 0x80 of byte 1, and changes nothing else.
    pub fn mark_error(&mut self)
        ensures marked { self.new ≡ marked self.old }
    {
        self.bytes[1] |= 0x80;
    }
}

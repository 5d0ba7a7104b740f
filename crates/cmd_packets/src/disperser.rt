// The command `disperse`.
ghost use Rattle.std.specs.Prelude.{◌≡◌, ◌%◌, [], length, if◌then◌else◌};
ghost use Rattle.cmd_packets.specs.DispersedPackets.{dispersed_packets};

use crate::coder::Coder;
use dispersal::Dispersal;
use ts_packet::Packet;

/// Disperses packets, each at the next phase.
#[derive(Drop)]
pub struct Disperser {
    dispersal: Dispersal,
    // the packet dispersed last
    word: [u8; 188],
    // the stream has ended
    done: bool,
}

impl Disperser {
    /// Before the first packet.
    pub fn start() -> Disperser
        ensures { result.dispersal ≡ 0 }
    {
        Disperser {
            dispersal: Dispersal::start(),
            word: [0; 188],
            done: false,
        }
    }
}

impl Coder for Disperser {
    ghost coded = { λ d packets. dispersed_packets packets };

    ghost ended = { λ d packets. dispersed_packets packets };

    ghost took = { λ d packets. d.dispersal ≡ length packets % 8 };

    ghost piece = { λ d. if d.done then [] else d.word };

    fn take(&mut self, packet: &Packet) {
        self.word = self.dispersal.apply(packet);
        self.done = false;
    }

    fn finish(&mut self) {
        self.done = true;
    }

    fn bytes(&self) -> &[u8] {
        if self.done { &[] } else { &self.word }
    }
}

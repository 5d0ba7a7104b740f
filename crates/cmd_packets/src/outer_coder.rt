// The command `outer`.
ghost use Rattle.std.specs.Prelude.{◌≡◌, [], if◌then◌else◌};
ghost use Rattle.outer_chain.specs.Sent.{sent_bytes};
ghost use Rattle.outer_chain.specs.Sending.{Sends};

use crate::coder::Coder;
use outer_chain::OuterTx;
use ts_packet::Packet;

/// Codes packets with the outer code, and interleaves the result.
#[derive(Drop)]
pub struct OuterCoder {
    tx: OuterTx,
    // the output for the packet taken last
    word: [u8; 204],
    // the stream has ended
    done: bool,
}

impl OuterCoder {
    /// Before the first packet.
    pub fn new(tx: OuterTx) -> OuterCoder
        ensures { result.tx ≡ tx }
    {
        OuterCoder {
            tx,
            word: [0; 204],
            done: false,
        }
    }
}

impl Coder for OuterCoder {
    ghost coded = { λ c packets. sent_bytes packets };

    ghost ended = { λ c packets. sent_bytes packets };

    ghost took = { λ c packets. Sends c.tx packets };

    ghost piece = { λ c. if c.done then [] else c.word };

    fn take(&mut self, packet: &Packet) {
        self.word = self.tx.take(packet);
        self.done = false;
    }

    fn finish(&mut self) {
        self.done = true;
    }

    fn bytes(&self) -> &[u8] {
        if self.done { &[] } else { &self.word }
    }
}

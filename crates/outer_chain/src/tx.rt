// The sender of the outer code.

ghost use Rattle.std.specs.Prelude.{◌≡◌, ◌<◌, ◌+◌, ◌*◌, ℕ, List, [], ◌∷◌, ◌++◌, length, IfOk};
ghost use Rattle.forney.specs.Values.{values};
ghost use Rattle.outer_chain.specs.Sent.{outer_byte, sent_bytes};
ghost use Rattle.outer_chain.specs.Sending.{Sends};

use dispersal::Dispersal;
use forney::WordInterleaver;
use rs204::encode;
use std::alloc::{AllocError, Global};
use std::marker::Model;
use ts_packet::Packet;

/// Codes the packets of a stream, 204 bytes for each. It stands for the packets that it has had.
#[derive(Drop)]
pub struct OuterTx {
    dispersal: Dispersal,
    interleaver: WordInterleaver,
}

impl Model for OuterTx {
    ghost use Rattle.outer_chain.specs.Sending.{Sender};

    ghost Value = { Sender };

    ghost view = { λ t. record { delays = t.interleaver; phase = t.dispersal } };
}

impl OuterTx {
    /// A sender that has had no packet. The only error is want of memory.
    pub fn new(alloc: Global) -> Result<OuterTx, AllocError>
        ensures empty { IfOk result (λ tx. Sends tx []) }
    {
        Ok(OuterTx {
            dispersal: Dispersal::start(),
            interleaver: WordInterleaver::new(alloc)?,
        })
    }

    /// Takes one packet more, and gives the next 204 interleaved bytes.
    pub fn take(&mut self, packet: &Packet) -> [u8; 204]
        ensures sends { (packets : List (List ℕ)) → Sends self.old packets
            → Sends self.new (packets ++ packet.now ∷ []) }
        ensures bytes { (packets : List (List ℕ)) → Sends self.old packets → result
            ≡ values (outer_byte (packets ++ packet.now ∷ [])) (204 * length packets) 204 }
        ensures next { (packets : List (List ℕ)) → Sends self.old packets → sent_bytes (packets ++ packet.now ∷ [])
            ≡ sent_bytes packets ++ result }
    {
        let mut word = encode(&self.dispersal.apply(packet));
        self.interleaver.take(&mut word);
        word
    }
}

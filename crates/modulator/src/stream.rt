// A stream between its packets and the symbols.
ghost use Rattle.std.specs.Prelude.{◌≡◌, ◌+◌, ◌*◌, ◌<◌, ◌≤◌, ◌++◌, ℕ, List, [], length, IfOk};
ghost use Rattle.bit_pack.specs.Queue.{bits_of_bytes};
ghost use Rattle.outer_chain.specs.Sent.{packet_at};
ghost use Rattle.outer_chain.specs.Sending.{Sends};
ghost use Rattle.modulator.specs.Streams.{HoldsBits};

use bit_pack::WaitBuf;
use outer_chain::OuterTx;
use outer_chain::laws::sending;
use puncture::bytes_are_paths;
use std::alloc::{AllocError, Global};
use ts_packet::Packet;

/// The outer coder of a stream, and the pending bits of its outer words.
#[derive(Drop)]
pub(crate) struct StreamTx {
    pub outer: OuterTx,
    pub waiting: WaitBuf,
}

// Appends the bits of the bytes.
fn push_word(word: &[u8], to: &mut WaitBuf)
    requires room { length to.old + 8 * length word.now ≤ 36864 }
    ensures bits { to.new ≡ to.old ++ bits_of_bytes word.now }
    ensures amount { length to.new ≡ length to.old + 8 * length word.now }
{
    to.push_bytes(word);
}

impl StreamTx {
    /// Before the first packet. It allocates all its memory.
    pub fn new(alloc: Global) -> Result<StreamTx, AllocError>
        ensures outer { IfOk result (λ stream. Sends stream.outer []) }
        ensures waiting { IfOk result (λ stream. stream.waiting ≡ []) }
    {
        Ok(StreamTx {
            outer: OuterTx::new(alloc)?,
            waiting: WaitBuf::new(),
        })
    }

    /// Puts in a packet: the 1632 bits of the next outer word become pending.
    pub fn put(&mut self, packet: &Packet)
        requires room { length self.old.waiting + 1632 ≤ 36864 }
        ensures amount { length self.new.waiting ≡ length self.old.waiting + 1632 }
        ensures holds { (packets : List (List ℕ)) (n taken : ℕ)
            → HoldsBits self.old.outer self.old.waiting packets n taken
            → packet.now ≡ packet_at packets n → HoldsBits self.new.outer self.new.waiting packets (n + 1) taken }
    {
        sending();
        bytes_are_paths();
        let word = self.outer.take(packet);
        push_word(&word, &mut self.waiting);
    }
}

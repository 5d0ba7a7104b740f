// The coding of the command `inner`.
ghost use Rattle.std.specs.Prelude.{◌≡◌, ◌++◌, [], List, ℕ};
ghost use Rattle.mode_set.specs.declared.modes.Rate.{Rate as AnyRate};
ghost use Rattle.outer_chain.specs.Sent.{sent_bytes};
ghost use Rattle.outer_chain.specs.Sending.{Sends};
ghost use Rattle.cmd_packets.specs.InnerBytes.{inner_bytes, filled_inner_bytes};
ghost use Rattle.cmd_packets.specs.Inner.{IsAfter};

use crate::coder::Coder;
use crate::inner_bytes::{InnerBytes, Piece};
use mode_set::Rate;
use outer_chain::OuterTx;
use ts_packet::Packet;

// Codes the bytes of a word, and replaces the content of the piece by the output.
fn code_word(inner: &mut InnerBytes, word: &[u8; 204], piece: &mut Piece)
    ensures after { (r : AnyRate) (bytes : List ℕ) → IsAfter inner.old r bytes
        → IsAfter inner.new r (bytes ++ word.now) }
    ensures gives { (r : AnyRate) (bytes : List ℕ) → IsAfter inner.old r bytes → inner_bytes r (bytes ++ word.now)
        ≡ inner_bytes r bytes ++ piece.new.items }
{
    piece.clear();
    for byte in word.iter() {
        inner.push(*byte, piece);
    }
}

/// Codes packets with the outer code, interleaves the result, and codes that with the inner code.
#[derive(Drop)]
pub struct InnerCoder {
    outer: OuterTx,
    inner: InnerBytes,
    rate: Rate,
    // the output of the last call
    piece: Piece,
}

impl InnerCoder {
    /// Before the first packet.
    pub fn new(outer: OuterTx, rate: Rate) -> InnerCoder
        ensures outer { result.outer ≡ outer }
        ensures inner { IsAfter result.inner rate [] }
        ensures rate { result.rate ≡ rate }
    {
        InnerCoder {
            outer,
            inner: InnerBytes::start(rate),
            rate,
            piece: Piece::new(),
        }
    }
}

impl Coder for InnerCoder {
    ghost coded = { λ c packets. inner_bytes c.rate (sent_bytes packets) };

    ghost ended = { λ c packets. filled_inner_bytes c.rate (sent_bytes packets) };

    ghost took = { λ c packets. Sends c.outer packets × IsAfter c.inner c.rate (sent_bytes packets) };

    ghost piece = { λ c. c.piece.items };

    fn take(&mut self, packet: &Packet) {
        let word = self.outer.take(packet);
        code_word(&mut self.inner, &word, &mut self.piece);
    }

    fn finish(&mut self) {
        self.piece.clear();
        self.inner.finish(&mut self.piece);
    }

    fn bytes(&self) -> &[u8] {
        self.piece.as_slice()
    }
}

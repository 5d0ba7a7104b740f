// The inner code of a stream of bytes, in bytes.
ghost use Rattle.std.specs.Prelude.{◌≡◌, ◌≤◌, ◌+◌, ◌-◌, ℕ, List, [], ◌∷◌, ◌++◌, length, max, replicate, false};
ghost use Rattle.arrayvec.specs.ArrayVec.{array_vec_len};
ghost use Rattle.mode_set.specs.declared.modes.Rate.{Rate as AnyRate};
ghost use Rattle.outer_chain.specs.Bits.{bytes_of};
ghost use Rattle.cmd_packets.specs.InnerBytes.{inner_bytes, filled_inner_bytes};
ghost use Rattle.cmd_packets.specs.Inner.{rest_of, IsAfter};

use arrayvec::ArrayVec;
use bit_pack::BitWord;
use mode_set::Rate;
use outer_chain::laws::bits;
use puncture::{
    PuncturedEncoder, bytes_are_paths, sent_bits_are_runs, steps_are_numbered, steps_send_in_order,
};
use std::marker::Model;

/// The bytes for one packet: at most 408, those of its word at rate 1/2.
pub type Piece = ArrayVec<u8, 408>;

// Moves the first whole byte of the bits into the piece, if there is one. There must be room for it.
fn take_one(waiting: &mut BitWord, piece: &mut Piece)
    requires room { array_vec_len piece.old + 1 ≤ 408 }
    ensures gives { piece.new.items ++ bytes_of waiting.new ≡ piece.old.items ++ bytes_of waiting.old }
    ensures rest { rest_of waiting.new ≡ rest_of waiting.old }
    ensures few { length waiting.new ≤ max 7 (length waiting.old - 8) }
    ensures count { array_vec_len piece.new ≤ array_vec_len piece.old + 1 }
{
    bits();
    if let Some(byte) = waiting.take_byte() {
        piece.push(byte);
    }
}

// Appends seven zeros to the bits.
fn push_zeros(waiting: &mut BitWord)
    requires room { length waiting.old ≤ 7 }
    ensures zeros { waiting.new ≡ waiting.old ++ replicate 7 false }
    ensures count { length waiting.new ≡ length waiting.old + 7 }
{
    waiting.push_bits(0, 7);
}

/// The inner coder of a stream of bytes (EN 300 744, 4.3.3): its output is the whole bytes of the sent bits.
///
/// Contracts see its encoder and puncturer, and the bits pending for a byte, fewer than eight.
#[derive(Drop)]
pub struct InnerBytes {
    coder: PuncturedEncoder,
    waiting: BitWord,
}

impl Model for InnerBytes {
    ghost use Rattle.std.specs.Prelude.{◌≤◌, length};
    ghost use Rattle.cmd_packets.specs.Inner.{InnerState};

    ghost Value = { InnerState };

    ghost view = { λ b. record { coder = b.coder; waiting = b.waiting } };

    ghost invariant = { λ b. length b.waiting ≤ 7 };
}

impl InnerBytes {
    /// The coder before the first byte.
    pub fn start(rate: Rate) -> InnerBytes
        ensures after { IsAfter result rate [] }
    {
        InnerBytes {
            coder: PuncturedEncoder::start(rate),
            waiting: BitWord::new(),
        }
    }

    /// Codes one more byte, and appends the resulting whole bytes, at most two, to the piece. There must be room for
    /// two.
    pub fn push(&mut self, byte: u8, piece: &mut Piece)
        requires room { array_vec_len piece.old + 2 ≤ 408 }
        ensures few { array_vec_len piece.new ≤ array_vec_len piece.old + 2 }
        ensures after { (r : AnyRate) (bytes : List ℕ) → IsAfter self.old r bytes
            → IsAfter self.new r (bytes ++ byte ∷ []) }
        ensures gives { (r : AnyRate) (bytes before : List ℕ) → IsAfter self.old r bytes
            → inner_bytes r bytes ≡ before ++ piece.old.items → inner_bytes r (bytes ++ byte ∷ []) ≡ before
            ++ piece.new.items }
    {
        steps_send_in_order();
        steps_are_numbered();
        sent_bits_are_runs();
        bytes_are_paths();
        self.coder.push_byte_in_word(byte, &mut self.waiting);
        take_one(&mut self.waiting, piece);
        take_one(&mut self.waiting, piece);
    }

    /// Ends the stream: appends the last byte, filled with zeros, to the piece if bits are pending for it. There must
    /// be room for it.
    pub fn finish(&mut self, piece: &mut Piece)
        requires room { array_vec_len piece.old + 1 ≤ 408 }
        ensures gives { (r : AnyRate) (bytes before : List ℕ) → IsAfter self.old r bytes
            → inner_bytes r bytes ≡ before ++ piece.old.items → filled_inner_bytes r bytes ≡ before ++ piece.new.items }
    {
        push_zeros(&mut self.waiting);
        take_one(&mut self.waiting, piece);
    }
}

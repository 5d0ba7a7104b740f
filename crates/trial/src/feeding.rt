// A receiver fed in pieces, with the sums of its output.
ghost use Rattle.std.specs.Prelude.{◌≡◌, ◌+◌, ◌%◌, ◌^◌, ◌<◌, ◌≤◌, ◌++◌, ℕ, List, [], false, length, sum, IfOk};
ghost use Rattle.load_gen.specs.Draws.{after};
ghost use Rattle.reception.specs.Cells.{symbol_length, tail};
ghost use Rattle.trial.specs.Drawn.{pieces};
ghost use Rattle.trial.specs.Feeding.{HasEnded, HasGiven, HasWhole};

use crate::sums::sum_onto;
use load_gen::Load;
use load_gen::laws::draws_add;
use mode_set::{Carriers, Settings};
use receiver::{Receiver, RxOut};
use std::alloc::{AllocError, Global};
use std::thread::Threads;
use word_workers::Gate;

/// A receiver, the output of its last call, and the sums of the bytes of all packets that it gave.
#[derive(Drop)]
pub(crate) struct SummedReceiver<M: Carriers> {
    pub receiver: Receiver<M>,
    pub out: RxOut,
    pub hp: u32,
    pub lp: u32,
}

impl<M: Carriers> SummedReceiver<M> {
    /// It has received no byte. It allocates all its memory; the only error is lack of memory.
    pub fn new(alloc: Global, settings: &Settings) -> Result<Self, AllocError>
        requires mode { settings.now.mode ≡ M.MODE }
        ensures settings { IfOk result (λ x. x.receiver.settings ≡ settings.now) }
        ensures given { IfOk result (λ x. HasGiven x.receiver [] x.hp x.lp) }
    {
        Ok(SummedReceiver {
            out: RxOut::new(alloc)?,
            receiver: Receiver::new(alloc, settings)?,
            hp: 0,
            lp: 0,
        })
    }

    // Adds the output of the last call.
    fn add(&mut self)
        ensures receiver { self.new.receiver ≡ self.old.receiver }
        ensures hp { self.new.hp ≡ (self.old.hp + sum self.old.out.hp) % 2 ^ 32 }
        ensures lp { self.new.lp ≡ (self.old.lp + sum self.old.out.lp) % 2 ^ 32 }
    {
        self.hp = sum_onto(self.hp, self.out.hp());
        self.lp = sum_onto(self.lp, self.out.lp());
    }

    // Feeds a piece that does not exceed the symbol.
    fn feed<R: Threads + Sync, G: Gate>(&mut self, rt: &R, gate: &G, piece: &[u8])
        requires going { self.old.receiver.ended ≡ false }
        requires few { self.old.receiver.taken < 2 ^ 32 }
        ensures settings { self.new.receiver.settings ≡ self.old.receiver.settings }
        ensures going { self.new.receiver.ended ≡ false }
        ensures taken { self.new.receiver.taken ≤ self.old.receiver.taken + 1 }
        ensures given { (bytes : List ℕ) → tail self.old.receiver.settings bytes
            + length piece.now ≤ symbol_length self.old.receiver.settings
            → HasGiven self.old.receiver bytes self.old.hp self.old.lp
            → HasGiven self.new.receiver (bytes ++ piece.now) self.new.hp self.new.lp }
    {
        self.receiver.feed_gated(rt, gate, piece, &mut self.out);
        self.add();
    }

    /// Feeds a symbol in pieces of random length.
    pub fn feed_symbol<R: Threads + Sync, G: Gate>(
        &mut self,
        rt: &R,
        gate: &G,
        symbol: &[u8],
        load: &mut Load,
    )
        requires going { self.old.receiver.ended ≡ false }
        requires long { length symbol.now ≤ 34085 }
        requires whole { length symbol.now ≡ symbol_length self.old.receiver.settings }
        requires before { HasWhole self.old.receiver self.old.hp self.old.lp }
        requires few { self.old.receiver.taken < 2 ^ 32 }
        ensures settings { self.new.receiver.settings ≡ self.old.receiver.settings }
        ensures load { load.new ≡ after (pieces load.old (length symbol.now)) load.old }
        ensures given { (bytes : List ℕ) → tail self.old.receiver.settings bytes ≡ 0
            → HasGiven self.old.receiver bytes self.old.hp self.old.lp
            → HasGiven self.new.receiver (bytes ++ symbol.now) self.new.hp self.new.lp }
    {
        draws_add();
        let mut fed = 0;
        while fed < symbol.len() {
            let piece = load.piece((symbol.len() - fed) as u32);
            self.feed(rt, gate, &symbol[fed..fed + piece as usize]);
            fed += piece as usize;
        }
    }

    /// Ends the reception.
    pub fn finish<R: Threads + Sync>(&mut self, rt: &R)
        requires going { self.old.receiver.ended ≡ false }
        ensures settings { self.new.receiver.settings ≡ self.old.receiver.settings }
        ensures ended { (bytes : List ℕ) → HasGiven self.old.receiver bytes self.old.hp self.old.lp
            → HasEnded self.new.receiver bytes self.new.hp self.new.lp }
    {
        self.receiver.finish(rt, &mut self.out);
        self.add();
    }
}

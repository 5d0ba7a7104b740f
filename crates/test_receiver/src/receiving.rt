// Receptions and their results.
ghost use Rattle.std.specs.Prelude.{◌≡◌, ◌<◌, ◌^◌, false};

use crate::cut::Cut;
use load_gen::Load;
use mode_set::{Carriers, Settings, Stream};
use receiver::{Receiver, RxOut};
use rx_report::{Counts, Event};
use std::alloc::{AllocError, Global};
use std::thread::Threads;
use word_workers::Gate;

/// The result of a reception.
#[derive(Drop, PartialEq)]
pub struct Received {
    /// The packets of HP.
    pub hp: Vec<u8>,
    /// The packets of LP.
    pub lp: Vec<u8>,
    /// The reports.
    pub events: Vec<Event>,
    /// The bytes of HP and of LP and the reports so far, after each symbol and at the end.
    pub ends: Vec<(usize, usize, usize)>,
    /// Whether there was no output between two symbols.
    pub quiet: bool,
    /// The number of bytes taken.
    pub taken: usize,
    /// The counts at the end.
    pub counts: Counts,
}

/// A receiver of a mode, and the output of its last call.
#[derive(Drop)]
pub struct Reception<M: Carriers> {
    receiver: Receiver<M>,
    out: RxOut,
}

impl<M: Carriers> Reception<M> {
    /// A receiver that has had no byte.
    pub fn begin(alloc: Global, settings: &Settings) -> Result<Reception<M>, AllocError>
        requires { settings.now.mode ≡ M.MODE }
    {
        let receiver = Receiver::<M>::new(alloc, settings)?;
        let out = RxOut::new(alloc)?;
        Ok(Reception { receiver, out })
    }

    /// Feeds a piece, and returns the number of bytes taken: 0 if the receiver must not be fed.
    pub fn feed<R: Threads + Sync>(&mut self, rt: &R, piece: &[u8]) -> usize {
        if self.receiver.ended() || self.receiver.symbols() >= 4294967296 {
            return 0;
        }
        take_piece(rt, &mut self.receiver, piece, &mut self.out)
    }

    /// The same through a gate.
    pub fn feed_gated<R: Threads + Sync, G: Gate>(
        &mut self,
        rt: &R,
        gate: &G,
        piece: &[u8],
    ) -> usize {
        if self.receiver.ended() || self.receiver.symbols() >= 4294967296 {
            return 0;
        }
        take_gated(rt, gate, &mut self.receiver, piece, &mut self.out)
    }

    /// Ends the reception, if it has not ended.
    pub fn finish<R: Threads + Sync>(&mut self, rt: &R) {
        if !self.receiver.ended() {
            take_end(rt, &mut self.receiver, &mut self.out);
        }
    }

    /// The number of symbols so far, and how many bytes of packets and how many reports the last call gave.
    pub fn stands(&self) -> (u64, usize, usize) {
        let hp = self.out.hp().len();
        let bytes = hp.saturating_add(self.out.lp().len());
        (self.receiver.symbols(), bytes, self.out.events().len())
    }

    /// The output of the last call: packets of HP and of LP, and reports.
    pub fn out(&self) -> &RxOut {
        &self.out
    }

    /// The counts so far, or at the end.
    pub fn counts(&self) -> Counts {
        self.receiver.counts()
    }

    /// The number of steps loaded into the decoder of HP, and whether it has ended.
    pub fn decoder(&self) -> (u32, bool) {
        symbol_parameters::laws::settings();
        let branch = self.receiver.branch(Stream::Hp);
        (branch.loaded(), branch.ended())
    }
}

// Feeds a piece; its contract says nothing of the reception.
fn take_piece<M: Carriers, R: Threads + Sync>(
    rt: &R,
    receiver: &mut Receiver<M>,
    piece: &[u8],
    out: &mut RxOut,
) -> usize
    requires going { receiver.old.ended ≡ false }
    requires few { receiver.old.taken < 2 ^ 32 }
{
    receiver.feed(rt, piece, out)
}

// The same through a gate.
fn take_gated<M: Carriers, R: Threads + Sync, G: Gate>(
    rt: &R,
    gate: &G,
    receiver: &mut Receiver<M>,
    piece: &[u8],
    out: &mut RxOut,
) -> usize
    requires going { receiver.old.ended ≡ false }
    requires few { receiver.old.taken < 2 ^ 32 }
{
    receiver.feed_gated(rt, gate, piece, out)
}

// Ends the reception; its contract says nothing of it.
fn take_end<M: Carriers, R: Threads + Sync>(rt: &R, receiver: &mut Receiver<M>, out: &mut RxOut)
    requires { receiver.old.ended ≡ false }
{
    receiver.finish(rt, out);
}

impl Received {
    // No output so far.
    fn none(alloc: Global, counts: Counts) -> Received {
        Received {
            hp: Vec::new(alloc),
            lp: Vec::new(alloc),
            events: Vec::new(alloc),
            ends: Vec::new(alloc),
            quiet: true,
            taken: 0,
            counts,
        }
    }

    // Appends the output of a call.
    fn append(&mut self, out: &RxOut) -> Result<(), AllocError> {
        self.hp.extend_from_slice(out.hp())?;
        self.lp.extend_from_slice(out.lp())?;
        self.events.extend_from_slice(out.events())?;
        let end = (self.hp.len(), self.lp.len(), self.events.len());
        self.ends.push(end)?;
        Ok(())
    }

    /// The reception of these bytes with these settings, whose mode is `M`.
    pub fn of<M: Carriers, R: Threads + Sync>(
        rt: &R,
        alloc: Global,
        settings: &Settings,
        bytes: &[u8],
        cut: Cut,
    ) -> Result<Received, AllocError>
        requires { settings.now.mode ≡ M.MODE }
    {
        let mut reception = Reception::<M>::begin(alloc, settings)?;
        let mut received = Received::none(alloc, reception.counts());
        let result = receive(rt, &mut reception, bytes, cut, &mut received);
        result.map(|()| received)
    }
}

// Feeds the bytes piece by piece and ends the reception.
fn receive<M: Carriers, R: Threads + Sync>(
    rt: &R,
    reception: &mut Reception<M>,
    bytes: &[u8],
    cut: Cut,
    received: &mut Received,
) -> Result<(), AllocError> {
    let mut load = Load::start(29);
    for _ in 0..bytes.len() {
        let rest = &bytes[received.taken.min(bytes.len())..];
        if !rest.is_empty() {
            feed(rt, reception, cut.piece(rest, &mut load), received)?;
        }
    }
    reception.finish(rt);
    received.counts = reception.counts();
    received.append(reception.out())
}

// Feeds a piece. The output is appended if a symbol was completed; otherwise there should be none.
fn feed<M: Carriers, R: Threads + Sync>(
    rt: &R,
    reception: &mut Reception<M>,
    piece: &[u8],
    received: &mut Received,
) -> Result<(), AllocError> {
    let before = reception.stands().0;
    let count = reception.feed(rt, piece);
    received.taken = received.taken.saturating_add(count);
    let (symbols, bytes, reports) = reception.stands();
    if symbols != before {
        return received.append(reception.out());
    }
    received.quiet = received.quiet && bytes == 0 && reports == 0;
    Ok(())
}

// The output of a call of a receiver.
ghost use Rattle.std.specs.Prelude.{◌≡◌, [], IfOk};

use rx_report::Event;
use std::alloc::{AllocError, Global};
use std::marker::Model;

/// The bytes of a packet.
const PACKET: usize = 188;

/// The most packets of a stream that one symbol completes.
const PACKETS: usize = 24;

/// The most reports of one symbol.
const EVENTS: usize = 32;

/// The output of the last call of a receiver: the bytes of packets of each stream, and unmerged reports.
///
/// It has room for 24 packets of each stream and for 32 reports, which one symbol never exceeds.
#[derive(Drop)]
pub struct RxOut {
    /// The bytes of the packets of HP.
    pub hp: Vec<u8>,
    /// The bytes of the packets of LP.
    pub lp: Vec<u8>,
    /// The reports.
    pub events: Vec<Event>,
}

impl Model for RxOut {
    ghost use Rattle.std.specs.Prelude.{◌≤◌, vec_capacity};
    ghost use Rattle.reception.specs.Feeds.{Output};

    ghost Value = { Output };

    ghost view = { λ o. record { hp = o.hp.items; lp = o.lp.items; events = o.events.items } };

    ghost invariant = { λ o. (4512 ≤ vec_capacity o.hp) × (4512 ≤ vec_capacity o.lp) × (32 ≤ vec_capacity o.events) };
}

impl RxOut {
    /// It is empty. The only error is lack of memory.
    pub fn new(alloc: Global) -> Result<RxOut, AllocError>
        ensures { IfOk result (λ out. out ≡ record { hp = []; lp = []; events = [] }) }
    {
        Ok(RxOut {
            hp: Vec::with_capacity(alloc, PACKET * PACKETS)?,
            lp: Vec::with_capacity(alloc, PACKET * PACKETS)?,
            events: Vec::with_capacity(alloc, EVENTS)?,
        })
    }

    /// The bytes of the packets of HP.
    pub fn hp(&self) -> &[u8]
        ensures { result.now ≡ self.now.hp }
    {
        &self.hp
    }

    /// The bytes of the packets of LP.
    pub fn lp(&self) -> &[u8]
        ensures { result.now ≡ self.now.lp }
    {
        &self.lp
    }

    /// The reports: those of HP, then those of LP, each in order.
    pub fn events(&self) -> &[Event]
        ensures { result.now ≡ self.now.events }
    {
        &self.events
    }

    /// Clears it.
    pub fn clear(&mut self)
        ensures { self.new ≡ record { hp = []; lp = []; events = [] } }
    {
        self.hp.clear();
        self.lp.clear();
        self.events.clear();
    }
}

// The transport file of a stream, packet by packet.
ghost use Rattle.std.specs.Prelude.{◌≡◌, ◌≤◌, ◌<◌, ℕ, List, Some, None, drop, true, IsTrue};
ghost use Rattle.station_core.specs.Meaning.{source_at};
ghost use Rattle.mode_set.specs.declared.modes.Stream.{Stream as AnyStream};
ghost use Rattle.cmd_base.specs.Causes.{HasCause};
ghost use Rattle.cmd_base.specs.Reading.{ReadsFront};
ghost use Rattle.cmd_modulate.specs.Inputs.{Gives, IsTaking, Reads, ReadsAt, left_of, port_of};

use cmd_base::{Refusal, fill};
use mode_set::Stream;
use station_core::{InPort, Station};
use ts_packet::{PACKET_LEN, Packet};

/// How far a transport file has been read.
#[derive(Clone, Copy, Debug, PartialEq, Eq)]
pub(crate) struct PacketInput {
    /// The number of whole packets taken.
    pub taken: u64,
    /// The number of bytes after the last whole packet, once the end was reached.
    pub tail: Option<u64>,
}

// The input port of a stream.
fn port_of(stream: Stream) -> InPort
    ensures { result ≡ port_of stream }
{
    match stream {
        Stream::Hp => InPort::Hp,
        Stream::Lp => InPort::Lp,
    }
}

impl PacketInput {
    /// Before the first packet.
    pub fn start() -> PacketInput
        ensures { result ≡ record { taken = 0; tail = None } }
    {
        PacketInput {
            taken: 0,
            tail: None,
        }
    }

    /// The input of a stream that does not exist; it is empty.
    pub fn none() -> PacketInput
        ensures { result ≡ record { taken = 0; tail = Some 0 } }
    {
        PacketInput {
            taken: 0,
            tail: Some(0),
        }
    }

    // Classifies the bytes read: a packet or the end of input, after which null packets follow.
    fn take(
        &mut self,
        stream: Stream,
        bytes: &[u8; 188],
        filled: usize,
        limit: u64,
    ) -> Result<Packet, Refusal>
        requires filled { filled ≤ 188 }
        requires few { self.old.taken ≤ limit }
        ensures few { self.new.taken ≤ limit }
        ensures met { self.new.tail ≡ None → self.old.tail ≡ None }
        ensures cause { IsTaking result }
        ensures gives { (files : AnyStream → List ℕ) (put : ℕ) (left : List ℕ) → self.old.tail ≡ None
            → Reads (files stream) left self.old put
            → ReadsFront left 188 filled bytes.now → Gives limit files stream put (drop filled left) self.new result }
    {
        if filled < PACKET_LEN {
            self.tail = Some(filled as u64);
            return Ok(Packet::null());
        }
        if self.taken >= limit {
            return Err(Refusal::Limit(limit));
        }
        match Packet::read(bytes) {
            Ok(packet) => {
                self.taken += 1;
                Ok(packet)
            }
            Err(_) => Err(Refusal::NotSync(stream, self.taken)),
        }
    }

    /// The next packet of the stream: the next one of its file or, once the end was reached, a null packet.
    ///
    /// A packet past the limit is refused, and then one without the sync byte. Each read requests the bytes still
    /// missing.
    pub fn next<'a, S: Station<'a>>(
        &mut self,
        stream: Stream,
        limit: u64,
        station: &mut S,
    ) -> Result<Packet, Refusal>
        requires attached { self.old.tail ≡ None → (source_at (port_of stream) (S.meaning station.old)).attached
            ≡ true }
        requires few { self.old.taken ≤ limit }
        ensures few { self.new.taken ≤ limit }
        ensures met { self.new.tail ≡ None → self.old.tail ≡ None }
        ensures others { ReadsAt stream (S.meaning station.old) (S.meaning station.new) }
        ensures cause { HasCause (S.meaning station.old) (S.meaning station.new) result }
        ensures gives { IsTrue (S.meaning station.old).tells → (files : AnyStream → List ℕ) (put : ℕ)
            → Reads (files stream) (left_of (S.meaning station.old) stream) self.old put
            → Gives limit files stream put (left_of (S.meaning station.new) stream) self.new result }
    {
        if self.tail.is_some() {
            return Ok(Packet::null());
        }
        let mut bytes = [0; 188];
        match fill(station, port_of(stream), &mut bytes) {
            Ok(filled) => self.take(stream, &bytes, filled, limit),
            Err(_) => Err(Refusal::ReadFault),
        }
    }
}

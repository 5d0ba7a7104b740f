// The transport files of both streams.
ghost use Rattle.std.specs.Prelude.{◌≡◌, ◌<◌, ℕ, List, Some, None, IsTrue, OnOk, OnErr};
ghost use Rattle.mode_set.specs.declared.modes.Stream.{Stream as AnyStream};
ghost use Rattle.modulator.specs.State.{HasPut};
ghost use Rattle.cmd_base.specs.Causes.{HasCause};
ghost use Rattle.cmd_modulate.specs.Seen.{Seen, seen_of, wanted, with_one};
ghost use Rattle.cmd_modulate.specs.Steps.{first_inputs};
ghost use Rattle.cmd_modulate.specs.Work.{AreOpen, AreWithin, BothRead, CountsAt, GivesOf, GoesOn, IsAtWork, IsDue};
ghost use Rattle.cmd_modulate.specs.Work.{KeepsOutputs};

use crate::counts::TransmissionCounts;
use crate::input::PacketInput;
use cmd_base::{Counts, Refusal};
use mode_set::{Carriers, Settings, Stream};
use modulator::Modulator;
use station_core::Station;
use transmission::laws::work;
use ts_packet::Packet;

/// How far the inputs have been read, of the high priority and of the low priority stream; the latter is empty if the
/// stream does not exist.
#[derive(Clone, Copy, Debug, PartialEq, Eq)]
pub(crate) struct PacketInputs {
    pub hp: PacketInput,
    pub lp: PacketInput,
}

impl PacketInputs {
    /// Before the first packets, of both streams or only of HP.
    pub fn first(two: bool) -> PacketInputs
        ensures { result ≡ first_inputs two }
    {
        PacketInputs {
            hp: PacketInput::start(),
            lp: if two {
                PacketInput::start()
            } else {
                PacketInput::none()
            },
        }
    }

    // The next packet of a stream.
    fn next_packet<'a, S: Station<'a>>(
        &mut self,
        stream: Stream,
        limit: u64,
        station: &mut S,
    ) -> Result<Packet, Refusal>
        requires open { AreOpen self.old (S.meaning station.old) }
        requires within { AreWithin limit self.old }
        ensures open { AreOpen self.new (S.meaning station.new) }
        ensures within { AreWithin limit self.new }
        ensures met { self.new.lp.tail ≡ None → self.old.lp.tail ≡ None }
        ensures others { KeepsOutputs (S.meaning station.old) (S.meaning station.new) }
        ensures cause { HasCause (S.meaning station.old) (S.meaning station.new) result }
        ensures gives { IsTrue (S.meaning station.old).tells → (files : AnyStream → List ℕ) (t : Seen)
            → BothRead files (S.meaning station.old) self.old t
            → GivesOf limit files stream t (S.meaning station.new) self.new result }
    {
        match stream {
            Stream::Hp => self.hp.next(Stream::Hp, limit, station),
            Stream::Lp => self.lp.next(Stream::Lp, limit, station),
        }
    }

    /// Reads the next packet of the wanted stream, and puts it into the modulator.
    pub fn put_next<'a, M: Carriers, S: Station<'a>>(
        &mut self,
        stream: Stream,
        limit: u64,
        tx: &mut Modulator<M>,
        station: &mut S,
    ) -> Result<(), Refusal>
        requires open { AreOpen self.old (S.meaning station.old) }
        requires within { AreWithin limit self.old }
        requires wanted { wanted (seen_of tx.old) ≡ Some stream }
        ensures open { AreOpen self.new (S.meaning station.new) }
        ensures within { AreWithin limit self.new }
        ensures met { self.new.lp.tail ≡ None → self.old.lp.tail ≡ None }
        ensures others { KeepsOutputs (S.meaning station.old) (S.meaning station.new) }
        ensures cause { HasCause (S.meaning station.old) (S.meaning station.new) result }
        ensures seen { OnOk result (seen_of tx.new ≡ with_one stream (seen_of tx.old)) }
        ensures kept { OnErr result (seen_of tx.new ≡ seen_of tx.old) }
        ensures works { IsTrue (S.meaning station.old).tells → (files : AnyStream → List ℕ)
            → IsDue files (seen_of tx.old)
            → IsAtWork limit files (S.meaning station.old) self.old (seen_of tx.old) (HasPut tx.old)
            → GoesOn limit files (S.meaning station.new) self.new (seen_of tx.new) (HasPut tx.new) result }
    {
        work();
        let packet = self.next_packet(stream, limit, station)?;
        tx.put(&packet);
        Ok(())
    }

    /// The counts, once all inputs have ended and exactly their super-frames were sent.
    pub fn counts_at<M: Carriers>(
        &self,
        settings: &Settings,
        symbols: u64,
    ) -> Option<TransmissionCounts>
        requires few { AreWithin 100000000 self.now }
        ensures { CountsAt settings.now self.now symbols result }
    {
        let hp_tail = self.hp.tail?;
        let lp_tail = self.lp.tail?;
        let super_frames = Modulator::<M>::super_frames(settings, self.hp.taken, self.lp.taken)?;
        if symbols % 272 != 0 || symbols / 272 != super_frames {
            return None;
        }
        Some(TransmissionCounts {
            hp: Counts {
                packets: self.hp.taken,
                tail: hp_tail,
            },
            lp: Counts {
                packets: self.lp.taken,
                tail: lp_tail,
            },
            super_frames,
        })
    }
}

// An output port of a station in memory. Its memory is allocated at the start.
ghost use Rattle.std.specs.Prelude.{◌≡◌, ◌≤◌, ◌<◌, ◌↔◌, ◌⊎◌, ◌+◌, ◌/◌, ◌++◌, ℕ, length, take, vec_capacity, true, OnOk};
ghost use Rattle.std.specs.Prelude.{OnErr, IfOk, IsTrue, IsErr};
ghost use Rattle.station_core.specs.Causes.{Rose, greatest_count};

use crate::Failed;
use std::alloc::{AllocError, Global};

// An output port.
#[derive(Drop)]
pub struct Writing<'a> {
    pub asked: Option<&'a str>,
    pub created: bool,
    pub closed: bool,
    pub bytes: Vec<u8>,
    pub room: u32,
    // the failed writes at this port
    pub faults: u64,
    ghost fits: { room ≤ vec_capacity bytes },
}

impl<'a> Writing<'a> {
    ghost use Rattle.station_core.specs.Meaning.{asked_sink, created_sink, written_sink, closed_sink, no_sink};
    ghost use Rattle.station_core.specs.Sinks.{sink_of};
    ghost use Rattle.std.specs.Prelude.{
      ◌≡◌,
      ◌≤◌,
      ◌<◌,
      ◌↔◌,
      ◌⊎◌,
      ◌+◌,
      ◌/◌,
      ◌++◌,
      ℕ,
      length,
      take,
      true,
      OnOk,
      OnErr,
      IfOk,
      IsTrue,
      IsErr,
    };
    ghost use Rattle.station_core.specs.Causes.{Rose, greatest_count};
    ghost use Rattle.station_core.specs.Counted.{CountsFault};

    // A port where no name was requested, with a capacity of `room` bytes.
    pub fn new(alloc: Global, room: u32) -> Result<Writing<'a>, AllocError>
        ensures new { IfOk result (λ w. sink_of w ≡ no_sink) }
        ensures room { IfOk result (λ w. w.room ≡ room) }
        ensures faultless { IfOk result (λ w. w.faults ≡ 0) }
    {
        Ok(Writing {
            asked: None,
            created: false,
            closed: false,
            bytes: Vec::with_capacity(alloc, room as usize)?,
            room,
            faults: 0,
        })
    }

    // Creates the output, or fails if set to.
    pub fn create(&mut self, fails: bool, name: &'a str, faults: &mut u64) -> Result<(), Failed>
        ensures ok { OnOk result (sink_of self.new ≡ created_sink name.now (sink_of self.old)) }
        ensures err { OnErr result (sink_of self.new ≡ asked_sink name.now (sink_of self.old)) }
        ensures exact { IsErr result ↔ IsTrue fails }
        ensures room { self.new.room ≡ self.old.room }
        ensures here { self.new.faults ≡ self.old.faults }
        ensures counts { CountsFault result faults.old faults.new }
    {
        self.asked = Some(name);
        if fails {
            return Err(count_fault(faults));
        }
        self.created = true;
        self.closed = false;
        self.bytes.clear();
        Ok(())
    }

    // Writes all the bytes; half of them if set to fail, none if they do not fit.
    pub fn write(&mut self, fails: bool, bytes: &[u8], faults: &mut u64) -> Result<(), Failed>
        ensures ok { OnOk result (sink_of self.new ≡ written_sink true bytes.now (sink_of self.old)) }
        ensures err { OnErr result ((n : ℕ) × (sink_of self.new ≡ written_sink true (take n bytes.now)
            (sink_of self.old))) }
        ensures exact { IsErr result ↔
            (IsTrue fails ⊎ (self.old.room < length self.old.bytes.items + length bytes.now)) }
        ensures half { IsTrue fails → length self.old.bytes.items + length bytes.now ≤ self.old.room
            → self.new.bytes.items ≡ self.old.bytes.items ++ take (length bytes.now / 2) bytes.now }
        ensures no_room { self.old.room < length self.old.bytes.items + length bytes.now → self.new.bytes.items
            ≡ self.old.bytes.items }
        ensures room { self.new.room ≡ self.old.room }
        ensures here { OnOk result (self.new.faults ≡ self.old.faults) }
        ensures here_rose { OnErr result (Rose self.old.faults self.new.faults) }
        ensures here_later { self.old.faults ≤ self.new.faults }
        ensures counts { CountsFault result faults.old faults.new }
    {
        let room = self.room as usize;
        let used = self.bytes.len();
        if used > room || bytes.len() > room - used {
            return Err(self.fail_write(faults));
        }
        if fails {
            let _ = self.bytes.extend_from_slice(&bytes[..bytes.len() / 2]);
            return Err(self.fail_write(faults));
        }
        match self.bytes.extend_from_slice(bytes) {
            Ok(()) => Ok(()),
            Err(_) => Err(self.fail_write(faults)),
        }
    }

    // Counts a failed write, also at this port.
    fn fail_write(&mut self, faults: &mut u64) -> Failed
        ensures same { sink_of self.new ≡ sink_of self.old }
        ensures bytes { self.new.bytes ≡ self.old.bytes }
        ensures room { self.new.room ≡ self.old.room }
        ensures here { Rose self.old.faults self.new.faults }
        ensures here_later { self.old.faults ≤ self.new.faults }
        ensures rose { Rose faults.old faults.new }
        ensures later { faults.old ≤ faults.new }
        ensures bounded { faults.new ≤ greatest_count }
    {
        self.faults = self.faults.saturating_add(1);
        count_fault(faults)
    }

    // Closes the output, and fails if set to.
    pub fn close(&mut self, fails: bool, faults: &mut u64) -> Result<(), Failed>
        ensures closed { sink_of self.new ≡ closed_sink (sink_of self.old) }
        ensures exact { IsErr result ↔ IsTrue fails }
        ensures room { self.new.room ≡ self.old.room }
        ensures here { self.new.faults ≡ self.old.faults }
        ensures counts { CountsFault result faults.old faults.new }
    {
        self.closed = true;
        if fails {
            return Err(count_fault(faults));
        }
        Ok(())
    }
}

// Counts a fault, up to the greatest number.
pub fn count_fault(faults: &mut u64) -> Failed
    ensures rose { Rose faults.old faults.new }
    ensures later { faults.old ≤ faults.new }
    ensures bounded { faults.new ≤ greatest_count }
{
    *faults = faults.saturating_add(1);
    Failed
}

// The work of a command that codes the packets of HP.
ghost use Rattle.std.specs.Prelude.{◌≡◌, ◌<◌, ◌+◌, ℕ, List, [], true, false, IsTrue, IfOk, IfSome, ◌∷◌, ◌++◌, take};
ghost use Rattle.cmd_base.specs.Causes.{HasCause};
ghost use Rattle.cmd_packets.specs.Coding.{KeepsOthers, OnTaken, Step, EndsAtLimit, Codes, EndsCoding};
ghost use Rattle.cmd_base.specs.Packets.{first_packets};

use crate::coder::Coder;
use cmd_base::{Counts, Limits, Refusal, fill};
use mode_set::Stream;
use station_core::{InPort, OutPort, Station};
use ts_packet::{PACKET_LEN, Packet};

// Reads, codes and writes the packet of this number. At the end it returns the length of the tail.
fn code_next<'a, C: Coder, S: Station<'a>>(
    number: u64,
    coder: &mut C,
    station: &mut S,
) -> Result<Option<u64>, Refusal>
    requires attached { (S.meaning station.old).hp.attached ≡ true }
    requires created { (S.meaning station.old).bytes_out.created ≡ true }
    requires open { (S.meaning station.old).bytes_out.closed ≡ false }
    ensures others { KeepsOthers (S.meaning station.old) (S.meaning station.new) }
    ensures cause { HasCause (S.meaning station.old) (S.meaning station.new) result }
    ensures same { (packets : List (List ℕ)) → C.coded coder.new packets ≡ C.coded coder.old packets }
    ensures same_end { (packets : List (List ℕ)) → C.ended coder.new packets ≡ C.ended coder.old packets }
    ensures kept { IfOk result (λ tail. IfSome tail (λ n. coder.new ≡ coder.old)) }
    ensures takes { OnTaken result ((packets : List (List ℕ)) → IsTrue (S.meaning station.old).tells → C.took coder.old
        packets
        → C.took coder.new (packets ++ take 188 (S.meaning station.old).hp.left ∷ [])) }
    ensures gives { OnTaken result ((packets : List (List ℕ)) → IsTrue (S.meaning station.old).tells → C.took coder.old
        packets
        → C.coded coder.old (packets ++ take 188 (S.meaning station.old).hp.left ∷ []) ≡ C.coded coder.old packets
        ++ C.piece coder.new) }
    ensures contents { IsTrue (S.meaning station.old).tells → Step number (C.piece coder.new)
        (S.meaning station.old).hp.left (S.meaning station.old).bytes_out.written
        (S.meaning station.new).hp.left (S.meaning station.new).bytes_out.written result }
{
    let mut bytes = [0; 188];
    let filled = match fill(station, InPort::Hp, &mut bytes) {
        Ok(filled) => filled,
        Err(_) => return Err(Refusal::ReadFault),
    };
    if filled < PACKET_LEN {
        return Ok(Some(filled as u64));
    }
    let packet = match Packet::read(&bytes) {
        Ok(packet) => packet,
        Err(_) => return Err(Refusal::NotSync(Stream::Hp, number)),
    };
    coder.take(&packet);
    if coder.bytes().is_empty() {
        return Ok(None);
    }
    match station.write(OutPort::Bytes, coder.bytes()) {
        Ok(()) => Ok(None),
        Err(_) => Err(Refusal::WriteFault),
    }
}

// One packet more than the limit is refused.
fn end_at_limit<'a, S: Station<'a>>(limit: u64, station: &mut S) -> Result<Counts, Refusal>
    requires { (S.meaning station.old).hp.attached ≡ true }
    ensures others { KeepsOthers (S.meaning station.old) (S.meaning station.new) }
    ensures cause { HasCause (S.meaning station.old) (S.meaning station.new) result }
    ensures contents { IsTrue (S.meaning station.old).tells → EndsAtLimit limit
        (S.meaning station.old).hp.left (S.meaning station.old).bytes_out.written
        (S.meaning station.new).hp.left (S.meaning station.new).bytes_out.written result }
{
    let mut bytes = [0; 188];
    match fill(station, InPort::Hp, &mut bytes) {
        Ok(filled) => {
            if filled < PACKET_LEN {
                Ok(Counts {
                    packets: limit,
                    tail: filled as u64,
                })
            } else {
                Err(Refusal::Limit(limit))
            }
        }
        Err(_) => Err(Refusal::ReadFault),
    }
}

/// Codes the packets of HP and writes the output to Bytes, up to the limit of packets.
///
/// It returns the counts, or the first refusal: a packet without its sync byte, one packet more than the limit, a
/// fault.
pub fn code_packets<'a, C: Coder, S: Station<'a>>(
    limits: &Limits,
    coder: &mut C,
    station: &mut S,
) -> Result<Counts, Refusal>
    requires attached { (S.meaning station.old).hp.attached ≡ true }
    requires created { (S.meaning station.old).bytes_out.created ≡ true }
    requires open { (S.meaning station.old).bytes_out.closed ≡ false }
    requires new { C.took coder.old [] }
    requires empty { C.coded coder.old [] ≡ [] }
    ensures others { KeepsOthers (S.meaning station.old) (S.meaning station.new) }
    ensures cause { HasCause (S.meaning station.old) (S.meaning station.new) result }
    ensures same { (packets : List (List ℕ)) → C.coded coder.new packets ≡ C.coded coder.old packets }
    ensures same_end { (packets : List (List ℕ)) → C.ended coder.new packets ≡ C.ended coder.old packets }
    ensures took { IfOk result (λ counts. IsTrue (S.meaning station.old).tells
        → C.took coder.new (first_packets counts.packets (S.meaning station.old).hp.left)) }
    ensures contents { IsTrue (S.meaning station.old).tells → Codes (C.coded coder.old) limits.now.packets
        (S.meaning station.old).hp.left (S.meaning station.old).bytes_out.written
        (S.meaning station.new).hp.left (S.meaning station.new).bytes_out.written result }
{
    for number in 0..limits.packets {
        match code_next(number, coder, station)? {
            None => {}
            Some(tail) => {
                return Ok(Counts {
                    packets: number,
                    tail,
                });
            }
        }
    }
    end_at_limit(limits.packets, station)
}

/// Ends the coding and writes the rest of its output to Bytes.
pub fn write_end<'a, C: Coder, S: Station<'a>>(
    coder: &mut C,
    station: &mut S,
) -> Result<(), Refusal>
    requires created { (S.meaning station.old).bytes_out.created ≡ true }
    requires open { (S.meaning station.old).bytes_out.closed ≡ false }
    ensures others { KeepsOthers (S.meaning station.old) (S.meaning station.new) }
    ensures cause { HasCause (S.meaning station.old) (S.meaning station.new) result }
    ensures gives { (packets : List (List ℕ)) → C.took coder.old packets
        → C.ended coder.old packets ≡ C.coded coder.old packets ++ C.piece coder.new }
    ensures contents { IsTrue (S.meaning station.old).tells → EndsCoding (C.piece coder.new)
        (S.meaning station.old).hp.left (S.meaning station.old).bytes_out.written
        (S.meaning station.new).hp.left (S.meaning station.new).bytes_out.written result }
{
    coder.finish();
    if coder.bytes().is_empty() {
        return Ok(());
    }
    match station.write(OutPort::Bytes, coder.bytes()) {
        Ok(()) => Ok(()),
        Err(_) => Err(Refusal::WriteFault),
    }
}

// The work: symbol after symbol.
ghost use Rattle.std.specs.Prelude.{◌≡◌, ◌≤◌, ◌<◌, ◌+◌, ◌*◌, ◌^◌, ℕ, List, [], Some, None, true, false, IsTrue, OnOk};
ghost use Rattle.std.specs.Prelude.{length};
ghost use Rattle.mode_set.specs.declared.modes.Stream.TheVariants.{Lp};
ghost use Rattle.mode_set.specs.declared.modes.Stream.{Stream as AnyStream};
ghost use Rattle.frame_build.specs.CellFile.{header as header_of};
ghost use Rattle.symbol_parameters.specs.Spans.{exists_in};
ghost use Rattle.transmission.specs.Transmission.{Inputs, tx_symbol};
ghost use Rattle.modulator.specs.State.{HasPut};
ghost use Rattle.cmd_base.specs.Causes.{HasCause};
ghost use Rattle.cmd_modulate.specs.Seen.{seen_of, wanted};
ghost use Rattle.cmd_modulate.specs.Work.{AreOpen, AreWithin, GoesOn, IsAtWork, IsDue, IsWritten, KeepsOthers};
ghost use Rattle.cmd_modulate.specs.Work.{KeepsOutputs, Modulates, Sends, WritesCells, WritesBytes};

use crate::counts::TransmissionCounts;
use crate::inputs::PacketInputs;
use cmd_base::{Limits, Refusal};
use frame_build::header;
use mode_set::{Carriers, Mode, Settings, Stream};
use modulator::{Modulator, Want};
use station_core::{OutPort, Station};
use transmission::laws::{packets, super_frames, symbols, work};

// Writes the header of the cell file.
fn write_header<'a, S: Station<'a>>(mode: Mode, station: &mut S) -> Result<(), Refusal>
    requires created { (S.meaning station.old).cells_out.created ≡ true }
    requires open { (S.meaning station.old).cells_out.closed ≡ false }
    ensures cause { HasCause (S.meaning station.old) (S.meaning station.new) result }
    ensures others { WritesCells (S.meaning station.old) (S.meaning station.new) }
    ensures written { IsTrue (S.meaning station.old).tells → WritesBytes (header_of mode) (S.meaning station.old)
        (S.meaning station.new) result }
{
    match station.write(OutPort::Cells, &header(mode)) {
        Ok(()) => Ok(()),
        Err(_) => Err(Refusal::WriteFault),
    }
}

// The stream of the next packet to put, HP before LP; none if the next symbol has enough.
fn stream_wanted<M: Carriers>(tx: &Modulator<M>) -> Option<Stream>
    ensures { result ≡ wanted (seen_of tx.now) }
{
    match tx.wants() {
        Want::Hp => Some(Stream::Hp),
        Want::Lp => Some(Stream::Lp),
        Want::Symbol => None,
    }
}

// Puts packets until the next symbol has enough.
fn put_wanted<'a, M: Carriers, S: Station<'a>>(
    limit: u64,
    inputs: &mut PacketInputs,
    tx: &mut Modulator<M>,
    station: &mut S,
) -> Result<(), Refusal>
    requires open { AreOpen inputs.old (S.meaning station.old) }
    requires within { AreWithin limit inputs.old }
    ensures open { AreOpen inputs.new (S.meaning station.new) }
    ensures within { AreWithin limit inputs.new }
    ensures met { inputs.new.lp.tail ≡ None → inputs.old.lp.tail ≡ None }
    ensures others { KeepsOutputs (S.meaning station.old) (S.meaning station.new) }
    ensures cause { HasCause (S.meaning station.old) (S.meaning station.new) result }
    ensures settings { tx.new.settings ≡ tx.old.settings }
    ensures made { tx.new.made ≡ tx.old.made }
    ensures suffices { OnOk result (wanted (seen_of tx.new) ≡ None) }
    ensures works { IsTrue (S.meaning station.old).tells → (files : AnyStream → List ℕ) → IsDue files (seen_of tx.old)
        → IsAtWork limit files (S.meaning station.old) inputs.old (seen_of tx.old) (HasPut tx.old)
        → GoesOn limit files (S.meaning station.new) inputs.new (seen_of tx.new) (HasPut tx.new) result }
{
    while let Some(stream) = stream_wanted(tx) {
        inputs.put_next(stream, limit, tx, station)?;
    }
    Ok(())
}

// Makes the next symbol, replacing the content of `bytes`, and writes it.
fn send_symbol<'a, M: Carriers, S: Station<'a>>(
    tx: &mut Modulator<M>,
    bytes: &mut [u8],
    station: &mut S,
) -> Result<(), Refusal>
    requires suffices { wanted (seen_of tx.old) ≡ None }
    requires few { tx.old.made < 2 ^ 32 }
    requires long { length bytes.old ≡ 5 * M.K }
    requires some { 0 < 5 * M.K }
    requires created { (S.meaning station.old).cells_out.created ≡ true }
    requires open { (S.meaning station.old).cells_out.closed ≡ false }
    ensures long { length bytes.new ≡ length bytes.old }
    ensures seen { seen_of tx.new ≡ record (seen_of tx.old) { made = tx.old.made + 1 } }
    ensures cause { HasCause (S.meaning station.old) (S.meaning station.new) result }
    ensures others { WritesCells (S.meaning station.old) (S.meaning station.new) }
    ensures stands { (inputs : Inputs) → HasPut tx.old inputs → HasPut tx.new inputs }
    ensures written { IsTrue (S.meaning station.old).tells → (inputs : Inputs) → HasPut tx.old inputs
        → WritesBytes (tx_symbol tx.old.settings inputs tx.old.made) (S.meaning station.old)
        (S.meaning station.new) result }
{
    tx.symbol_into(bytes);
    match station.write(OutPort::Cells, bytes) {
        Ok(()) => Ok(()),
        Err(_) => Err(Refusal::WriteFault),
    }
}

// Puts the packets of the next symbol, and sends it.
fn next_symbol<'a, M: Carriers, S: Station<'a>>(
    limit: u64,
    inputs: &mut PacketInputs,
    tx: &mut Modulator<M>,
    bytes: &mut [u8],
    station: &mut S,
) -> Result<(), Refusal>
    requires few { tx.old.made < 2 ^ 32 }
    requires long { length bytes.old ≡ 5 * M.K }
    requires some { 0 < 5 * M.K }
    requires created { (S.meaning station.old).cells_out.created ≡ true }
    requires open { (S.meaning station.old).cells_out.closed ≡ false }
    requires inputs_open { AreOpen inputs.old (S.meaning station.old) }
    requires within { AreWithin limit inputs.old }
    ensures long { length bytes.new ≡ length bytes.old }
    ensures inputs_open { AreOpen inputs.new (S.meaning station.new) }
    ensures within { AreWithin limit inputs.new }
    ensures met { inputs.new.lp.tail ≡ None → inputs.old.lp.tail ≡ None }
    ensures settings { tx.new.settings ≡ tx.old.settings }
    ensures made { OnOk result (tx.new.made ≡ tx.old.made + 1) }
    ensures others { KeepsOthers (S.meaning station.old) (S.meaning station.new) }
    ensures cause { HasCause (S.meaning station.old) (S.meaning station.new) result }
    ensures sends { IsTrue (S.meaning station.old).tells → (files : AnyStream → List ℕ) → IsDue files (seen_of tx.old)
        → IsWritten limit files (S.meaning station.old) inputs.old (seen_of tx.old) (HasPut tx.old)
        → Sends limit files (S.meaning station.new) inputs.new (seen_of tx.new) (HasPut tx.new) result }
{
    work();
    symbols();
    put_wanted(limit, inputs, tx, station)?;
    send_symbol(tx, bytes, station)
}

/// Sends the cell file: its header, then all symbols of the transmission. It ends with the first super-frame that
/// completes all packets of the ended inputs and eleven words more. If there is no such super-frame, it continues to
/// the limit.
///
/// It returns the counts, or the first refusal: one symbol more than the limit, one packet more than the limit, a
/// packet without its sync byte, a fault.
pub(crate) fn send_file<'a, M: Carriers, S: Station<'a>>(
    limits: &Limits,
    settings: &Settings,
    mut inputs: PacketInputs,
    tx: &mut Modulator<M>,
    bytes: &mut [u8],
    station: &mut S,
) -> Result<TransmissionCounts, Refusal>
    requires few { limits.now.packets ≤ 100000000 }
    requires same { tx.old.settings ≡ settings.now }
    requires two { inputs.lp.tail ≡ None → IsTrue (exists_in tx.old.settings Lp) }
    requires none_made { tx.old.made ≡ 0 }
    requires long { length bytes.old ≡ 5 * M.K }
    requires some { 0 < 5 * M.K }
    requires created { (S.meaning station.old).cells_out.created ≡ true }
    requires open { (S.meaning station.old).cells_out.closed ≡ false }
    requires inputs_open { AreOpen inputs (S.meaning station.old) }
    requires within { AreWithin limits.now.packets inputs }
    ensures others { KeepsOthers (S.meaning station.old) (S.meaning station.new) }
    ensures cause { HasCause (S.meaning station.old) (S.meaning station.new) result }
    ensures modulates { IsTrue (S.meaning station.old).tells → (files : AnyStream → List ℕ)
        → IsAtWork limits.now.packets files (S.meaning station.old) inputs (seen_of tx.old) (HasPut tx.old)
        → (S.meaning station.old).cells_out.written ≡ []
        → Modulates tx.old.settings limits.now.packets files (S.meaning station.new) result }
{
    symbol_parameters::laws::settings();
    work();
    packets();
    super_frames();
    symbols();
    write_header(settings.mode, station)?;
    for symbol in 0..settings.max_symbols {
        next_symbol(limits.packets, &mut inputs, tx, bytes, station)?;
        match inputs.counts_at::<M>(settings, symbol as u64 + 1) {
            Some(counts) => return Ok(counts),
            None => {}
        }
    }
    Err(Refusal::Limit(settings.max_symbols as u64))
}

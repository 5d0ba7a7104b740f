// The disturbance of the cells of a symbol.
ghost use Rattle.std.specs.Prelude.{◌≡◌, ◌+◌, ◌*◌, ◌%◌, ◌<◌, ◌≤◌, ◌==◌, ◌++◌, ◌+ℤ◌, if◌then◌else◌, length, nat_abs};
ghost use Rattle.std.specs.Prelude.{vec_len, vec_capacity};
ghost use Rattle.load_gen.specs.Draws.{after, shift_of};
ghost use Rattle.qam_map.specs.Points.{tolerance as tolerance_of};
ghost use Rattle.frame_build.specs.Symbol.{cell_from, sent_bytes};
ghost use Rattle.symbol_parameters.specs.Spans.{settings_at};
ghost use Rattle.transmission.specs.Transmission.{tx_symbol};
ghost use Rattle.trial.specs.Drawn.{before, drawn, pieces_from, shifts_from};
ghost use Rattle.trial.specs.Fed.{fed_cell, fed_symbol, negated};
ghost use Rattle.trial.specs.Laws.{IsSmall};
ghost use Rattle.trial.specs.Disturbing.{IsNegatable, behind_cell, disturbed_by, moved_by, payload_below};

use crate::draws::Draws;
use crate::laws::cells;
use byteorder::{BigEndian, ByteOrder};
use load_gen::Load;
use load_gen::laws::draws_add;
use mode_set::{Carriers, Settings};
use pilots::{CarrierKind, kind, symbols_have_as_many_payload_carriers};
use qam_map::{Cell, tolerance};
use symbol_parameters::parameters_of_symbol;
use transmission::laws::symbols;

// The cell in the first four of five bytes.
fn read_cell(bytes: &[u8], k: usize) -> Cell
    requires { 5 * k + 5 ≤ length bytes.now }
    ensures { result ≡ cell_from bytes.now k }
{
    Cell {
        re: BigEndian::read_i16(&bytes[5 * k..]),
        im: BigEndian::read_i16(&bytes[5 * k + 2..]),
    }
}

// Appends a cell at full weight; its five bytes fit the spare capacity.
#[tactic(auto, unfolding(frame_build::specs::Symbol::cell_bytes, frame_build::specs::Symbol::sent_bytes))]
fn push_cell(cell: Cell, to: &mut Vec<u8>)
    requires { vec_len to.old + 5 ≤ vec_capacity to.old }
    ensures bytes { to.new.items ≡ to.old.items ++ sent_bytes cell }
    ensures len { vec_len to.new ≡ vec_len to.old + 5 }
    ensures capacity { vec_capacity to.new ≡ vec_capacity to.old }
{
    let mut bytes = [0; 4];
    BigEndian::write_i16(&mut bytes, cell.re);
    BigEndian::write_i16(&mut bytes[2..], cell.im);
    to.push_reserved(bytes[0]);
    to.push_reserved(bytes[1]);
    to.push_reserved(bytes[2]);
    to.push_reserved(bytes[3]);
    to.push_reserved(15);
}

// One part of a cell, moved by the next shift.
fn move_part(part: i16, delta: u16, load: &mut Load) -> i16
    requires small { nat_abs part ≤ 21845 }
    requires most { delta ≤ 5792 }
    ensures part { result ≡ part +ℤ shift_of delta load.old }
    ensures within { nat_abs result ≤ 27637 }
    ensures next { load.new ≡ after 1 load.old }
{
    part + load.shift(delta)
}

// A cell, its real part moved before the imaginary one.
fn move_cell(cell: Cell, delta: u16, load: &mut Load) -> Cell
    requires small { IsSmall cell }
    requires most { delta ≤ 5792 }
    ensures cell { result ≡ moved_by delta load.old cell }
    ensures within { IsNegatable result }
    ensures next { load.new ≡ after 1 (after 1 load.old) }
{
    let re = move_part(cell.re, delta, load);
    let im = move_part(cell.im, delta, load);
    Cell { re, im }
}

fn negate_cell(cell: Cell, negate: bool) -> Cell
    requires { IsNegatable cell }
    ensures { result ≡ (if negate then negated cell else cell) }
{
    if !negate {
        return cell;
    }
    Cell {
        re: -cell.re,
        im: -cell.im,
    }
}

// A cell after the disturbance for its kind of carrier.
fn disturb_cell(cell: Cell, kind: CarrierKind, delta: u16, negate: bool, load: &mut Load) -> Cell
    requires small { IsSmall cell }
    requires most { delta ≤ 5792 }
    ensures cell { result ≡ disturbed_by delta negate load.old cell kind }
    ensures next { load.new ≡ behind_cell load.old kind }
{
    match kind {
        CarrierKind::Continual => cell,
        CarrierKind::Scattered => cell,
        CarrierKind::Tps => cell,
        CarrierKind::Payload(_) => negate_cell(move_cell(cell, delta, load), negate),
    }
}

// The cell of carrier `k` of the symbol, disturbed.
fn next_cell<M: Carriers>(
    settings: &Settings,
    symbol: u32,
    k: u32,
    delta: u16,
    sent: &[u8],
    draws: &mut Draws,
) -> Cell
    requires mode { settings.now.mode ≡ M.MODE }
    requires carrier { k < M.K }
    requires delta { delta ≡ tolerance_of (settings_at settings.now symbol).shape
        (settings_at settings.now symbol).hierarchy }
    requires sent { sent.now ≡ tx_symbol settings.now (drawn settings.now draws.old.number) symbol }
    requires load { draws.old.load ≡ after (2 * payload_below M.MODE (symbol % 68) k) (shifts_from settings.now
        draws.old.number symbol (before settings.now draws.old.number symbol)) }
    ensures cell { result ≡ fed_cell settings.now draws.old.number symbol k }
    ensures draws { draws.new ≡ record draws.old {
      load = after (2 * payload_below M.MODE (symbol % 68) (k + 1))
          (shifts_from settings.now draws.old.number symbol (before settings.now draws.old.number symbol));
    } }
{
    cells();
    symbols();
    draws_add();
    let cell = read_cell(sent, k as usize);
    let kind = kind(M::MODE, (symbol % 68) as u8, k);
    disturb_cell(cell, kind, delta, symbol % 17 == 16, &mut draws.load)
}

/// Replaces the content of `fed` by the disturbed cells of a symbol; `sent` has the cells sent.
pub(crate) fn disturb<M: Carriers>(
    settings: &Settings,
    symbol: u32,
    sent: &[u8],
    draws: &mut Draws,
    fed: &mut Vec<u8>,
)
    requires mode { settings.now.mode ≡ M.MODE }
    requires sent { sent.now ≡ tx_symbol settings.now (drawn settings.now draws.old.number) symbol }
    requires load { draws.old.load ≡ shifts_from settings.now draws.old.number symbol (before settings.now
        draws.old.number symbol) }
    requires room { 5 * M.K ≤ vec_capacity fed.old }
    ensures room { vec_capacity fed.new ≡ vec_capacity fed.old }
    ensures fed { fed.new.items ≡ fed_symbol settings.now draws.old.number symbol }
    ensures draws { draws.new ≡ record draws.old {
      load = pieces_from settings.now draws.old.number symbol
          (before settings.now draws.old.number symbol);
    } }
{
    symbols_have_as_many_payload_carriers(M::MODE, (symbol % 68) as u8);
    let entry = parameters_of_symbol(settings, symbol as u64);
    let delta = tolerance(entry.shape, entry.hierarchy);
    fed.clear();
    for k in 0..M::K {
        push_cell(next_cell::<M>(settings, symbol, k, delta, sent, draws), fed);
    }
}

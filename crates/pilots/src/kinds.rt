// The kind of a carrier, and the payload carriers by their numbers.
ghost use Rattle.std.specs.Prelude.{◌≡◌, ℕ, ◌<◌, ◌≤◌, All, length, slice_index};
ghost use Rattle.mode_set.specs.StreamTable.{carriers, payload};
ghost use Rattle.pilots.specs.Around.{is_pilot};
ghost use Rattle.pilots.specs.Carriers.{kind, payload_carriers, tps_carriers};
ghost use Rattle.pilots.specs.Tables.{in_set, rank, continual_set, tps_set, payload_set, below_words, payload_places};

use crate::CarrierKind;
use crate::payload_carriers::PAYLOAD_CARRIERS;
use crate::sets::{BELOW, CONTINUAL, PAYLOAD, TPS, TPS_2K, TPS_8K};
use mode_set::Mode;

// The pilots and the TPS carriers repeat after this number of carriers ..
const PERIOD: u32 = 1704;

// .. of which this number are payload carriers in every symbol.
const PAYLOAD_IN_PERIOD: u32 = 1512;

fn is_in(set: &[u64; 27], place: u32) -> bool
    requires { place < 1704 }
    ensures { result ≡ in_set set.now place }
{
    set[(place / 64) as usize] >> (place % 64) & 1 == 1
}

// The number of members of a set below a carrier; `below` has those below the start of each word.
fn members_below(set: &[u64; 27], below: &[u16; 27], place: u32) -> u32
    requires { place < 1704 }
    ensures { result ≡ rank set.now below.now place }
{
    let word = (place / 64) as usize;
    let lower = set[word] & ((1 << (place % 64)) - 1);
    u32::from(below[word]) + lower.count_ones()
}

fn continual() -> &'static [u64; 27]
    ensures { result.now ≡ continual_set }
{
    &CONTINUAL
}

fn tps() -> &'static [u64; 27]
    ensures { result.now ≡ tps_set }
{
    &TPS
}

// The set of the payload carriers of a symbol, and the number of them below each word.
fn payload(symbol: usize) -> (&'static [u64; 27], &'static [u16; 27])
    requires { symbol < 4 }
    ensures set { result.0.now ≡ payload_set symbol }
    ensures below { result.1.now ≡ below_words symbol }
{
    (&PAYLOAD[symbol], &BELOW[symbol])
}

/// The kind of carrier `k` in symbol `l` of a frame (EN 300 744, 4.4). A carrier that is both a continual and a
/// scattered pilot is `Continual`. The index of a payload carrier is below their number in the mode.
pub fn kind(mode: Mode, l: u8, k: u32) -> CarrierKind
    requires symbol { l < 68 }
    requires carrier { k < carriers mode }
    ensures kind { result ≡ kind mode l k }
    ensures number { (q : ℕ) → result ≡ CarrierKind.Payload q → q < payload mode }
{
    let symbol = l as usize % 4;
    let place = k % PERIOD;
    if is_in(continual(), place) {
        return CarrierKind::Continual;
    }
    if place % 12 == 3 * symbol as u32 {
        return CarrierKind::Scattered;
    }
    if is_in(tps(), place) {
        return CarrierKind::Tps;
    }
    let (set, below) = payload(symbol);
    CarrierKind::Payload(k / PERIOD * PAYLOAD_IN_PERIOD + members_below(set, below, place))
}

/// Whether carrier `k` of symbol `l` of a frame is a pilot, continual or scattered (EN 300 744, 4.5.3 and
/// 4.5.4).
#[tactic(auto, unfolding(crate::specs::Around::is_pilot))]
pub fn is_pilot(mode: Mode, l: u8, k: u32) -> bool
    requires symbol { l < 68 }
    requires carrier { k < carriers mode }
    ensures { result ≡ is_pilot mode l k }
{
    match kind(mode, l, k) {
        CarrierKind::Continual | CarrierKind::Scattered => true,
        CarrierKind::Tps | CarrierKind::Payload(_) => false,
    }
}

// The payload carriers of a symbol within a period.
fn payload_in_period(symbol: usize) -> &'static [u16; 1512]
    requires { symbol < 4 }
    ensures { result.now ≡ payload_places symbol }
{
    &PAYLOAD_CARRIERS[symbol]
}

/// The payload carrier of symbol `l` of a frame that has exactly `q` payload carriers below it.
pub fn carrier(mode: Mode, l: u8, q: u32) -> u32
    requires symbol { l < 68 }
    requires number { q < payload mode }
    ensures kind { kind mode l result ≡ CarrierKind.Payload q }
    ensures within { result < carriers mode }
    ensures listed { result ≡ slice_index (payload_carriers mode l) q }
{
    let place = payload_in_period(l as usize % 4)[(q % PAYLOAD_IN_PERIOD) as usize];
    q / PAYLOAD_IN_PERIOD * PERIOD + u32::from(place)
}

/// The TPS carriers of a symbol, rising: 17 in the 2K mode, 68 in the 8K mode (EN 300 744, 4.6).
pub fn tps_carriers(mode: Mode) -> &'static [u16]
    ensures carriers { result.now ≡ tps_carriers mode }
    ensures few { length result.now ≤ 68 }
    ensures within { All (λ k. k < carriers mode) result.now }
{
    match mode {
        Mode::M2k => &TPS_2K,
        Mode::M8k => &TPS_8K,
    }
}

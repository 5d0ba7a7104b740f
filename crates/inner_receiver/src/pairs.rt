// The cost pairs of the streams in a symbol.
ghost use Rattle.std.specs.Prelude.{◌≡◌, ◌%◌, ◌<◌, ◌≤◌, ◌^◌, IfOk, map, length, take};
ghost use Rattle.spec_words.specs.Words.{numbers};
ghost use Rattle.mode_set.specs.StreamTable.{carriers, need};
ghost use Rattle.mode_set.specs.declared.modes.Stream.TheVariants.{Hp, Lp};
ghost use Rattle.symbol_parameters.specs.Spans.{settings_at};
ghost use Rattle.inner_chain.specs.CostTables.{AreWeights};
ghost use Rattle.inner_chain.specs.PairLists.{pair_of};
ghost use Rattle.inner_receiver.specs.Rooms.{most_pairs};

use conv_code::CostPair;
use inner_chain::InnerRx;
use mode_set::{Carriers, Settings, Stream};
use qam_map::Cell;
use std::alloc::{AllocError, Global};
use symbol_parameters::parameters_of_symbol;

/// The most cost pairs of a stream in a symbol of any parameters; 0 if the stream does not exist in the transmission.
fn most_pairs(settings: &Settings, stream: Stream) -> u32
    ensures most { result ≡ most_pairs settings.now stream }
    ensures few { result ≤ 31752 }
{
    symbol_parameters::laws::settings();
    match stream {
        Stream::Hp => 21 * settings.mode.payload() / 4,
        Stream::Lp if settings.has_lp() => 7 * settings.mode.payload() / 2,
        Stream::Lp => 0,
    }
}

// Space for the most cost pairs of a stream in a symbol.
pub(crate) fn room_for_pairs(
    alloc: Global,
    settings: &Settings,
    stream: Stream,
) -> Result<Vec<CostPair>, AllocError>
    ensures { IfOk result (λ room. length room.items ≡ most_pairs settings.now stream) }
{
    let nothing = CostPair {
        x0: 0,
        x1: 0,
        y0: 0,
        y1: 0,
    };
    vec![in alloc; nothing; most_pairs(settings, stream) as usize]
}

/// Writes the cost pairs of both streams in a symbol of the transmission to the start of `hp` and `lp`, and returns the
/// number of each: 0 for a stream that does not exist there.
///
/// `cells` are those of all carriers of the symbol, and `weights` theirs, each at most 15.
pub(crate) fn put_pairs<M: Carriers>(
    settings: &Settings,
    symbol: u64,
    inner: &mut InnerRx<M>,
    cells: &[Cell],
    weights: &[u8],
    hp: &mut Vec<CostPair>,
    lp: &mut Vec<CostPair>,
) -> (usize, usize)
    requires symbol { symbol < 2 ^ 32 }
    requires inner { inner.old ≡ settings.now }
    requires cells { length cells.now ≡ carriers settings.now.mode }
    requires weights { AreWeights settings.now.mode weights.now }
    requires hp_room { most_pairs settings.now Hp ≤ length hp.old.items }
    requires lp_room { most_pairs settings.now Lp ≤ length lp.old.items }
    ensures hp { take result.0 hp.new.items ≡ map (pair_of (settings_at settings.now symbol) cells.now weights.now
        (symbol % 68) Hp) (numbers (need (settings_at settings.now symbol) Hp)) }
    ensures lp { take result.1 lp.new.items ≡ map (pair_of (settings_at settings.now symbol) cells.now weights.now
        (symbol % 68) Lp) (numbers (need (settings_at settings.now symbol) Lp)) }
    ensures hp_few { result.0 ≤ most_pairs settings.now Hp }
    ensures lp_few { result.1 ≤ most_pairs settings.now Lp }
    ensures hp_long { length hp.new.items ≡ length hp.old.items }
    ensures lp_long { length lp.new.items ≡ length lp.old.items }
    ensures inner { inner.new ≡ settings.now }
{
    symbol_parameters::laws::settings();
    symbol_parameters::laws::steps();
    let entry = parameters_of_symbol(settings, symbol);
    let hp_steps = inner.steps(&entry, Stream::Hp) as usize;
    let lp_steps = inner.steps(&entry, Stream::Lp) as usize;
    let l = (symbol % 68) as u8;
    inner.symbol_pairs(&entry, cells, weights, l, hp, lp);
    (hp_steps, lp_steps)
}

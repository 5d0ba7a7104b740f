// The encoders of both streams among their known bits, and the labels that they make.
ghost use Rattle.std.specs.Prelude.{◌≡◌, ◌+◌, ◌%◌, ◌<◌, ◌≤◌, ◌^◌, ◌&&◌, ◌==◌, ℕ, List, Bool, [], take, drop, length};
ghost use Rattle.std.specs.Prelude.{slice_index, vec_capacity};
ghost use Rattle.mode_set.specs.StreamTable.{need, payload, label_bits};
ghost use Rattle.mode_set.specs.Entries.{with_entry};
ghost use Rattle.mode_set.specs.declared.modes.Stream.{Stream as AnyStream};
ghost use Rattle.mode_set.specs.declared.modes.Stream.TheVariants.{Hp, Lp};
ghost use Rattle.mode_set.specs.declared.settings.Settings.{Settings as AnySettings};
ghost use Rattle.inner_chain.specs.Labels.{AppendsLabels, IsBefore, Paths, TxState, behind, coded_bits, input_bits};
ghost use Rattle.measurement.specs.Known.{is_zero, remade_bit};
ghost use Rattle.spec_words.specs.Bits.{is_set};
ghost use Rattle.symbol_parameters.specs.Spans.{settings_at};
ghost use Rattle.measure_known_bits.specs.Passing.{IsSettled, has_bits};
ghost use Rattle.measure_comparison.specs.Kept.{AreLong};
ghost use Rattle.measure_comparison.specs.Standing.{AreReady, HavePassed};

use bit_pack::WaitBuf;
use inner_chain::InnerTx;
use measure_known_bits::KnownBits;
use mode_set::{Carriers, Entry, Settings, Start, Stream};

/// Moves the encoder of each stream on to the next symbol, as far as bits are known.
pub(crate) fn pass_both<M: Carriers>(coder: &mut InnerTx<M>, hp: &mut KnownBits, lp: &mut KnownBits)
    ensures settings { coder.new.settings ≡ coder.old.settings }
    ensures registers { AreLong coder.old → AreLong coder.new }
    ensures hp_settled { IsSettled hp.new }
    ensures lp_settled { IsSettled lp.new }
    ensures hp_before { hp.new.before ≡ hp.old.before }
    ensures lp_before { lp.new.before ≡ lp.old.before }
    ensures hp_lag { hp.new.lag ≤ hp.new.before }
    ensures lp_lag { lp.new.lag ≤ lp.new.before }
    ensures passed { (s : AnySettings) (m : ℕ) (known : AnyStream → List Bool)
        → HavePassed s m hp.old lp.old coder.old known → HavePassed s m hp.new lp.new coder.new known }
{
    hp.pass_by(Stream::Hp, coder);
    lp.pass_by(Stream::Lp, coder);
}

/// Is the register before the first step known?
fn is_zero(start: Start) -> bool
    ensures { result ≡ is_zero start }
{
    match start {
        Start::Zero => true,
        Start::Any => false,
    }
}

/// Do the known bits of each stream of a symbol suffice, by its parameters?
pub(crate) fn has_all(settings: &Settings, hp: &KnownBits, lp: &KnownBits) -> bool
    requires hp { hp.now.lag < 2 ^ 60 }
    requires lp { lp.now.lag < 2 ^ 60 }
    ensures all { result ≡ (has_bits settings.now Hp hp.now && has_bits settings.now Lp lp.now) }
{
    let zero = is_zero(settings.start);
    hp.suffices(
        settings.has_stream(Stream::Hp),
        settings.need(Stream::Hp),
        zero,
    ) && lp.suffices(
        settings.has_stream(Stream::Lp),
        settings.need(Stream::Lp),
        zero,
    )
}

/// Leaves a symbol of these parameters out of both streams.
pub(crate) fn leave_out(settings: &Settings, hp: &mut KnownBits, lp: &mut KnownBits)
    requires hp_before { hp.old.before < 2 ^ 60 }
    requires lp_before { lp.old.before < 2 ^ 60 }
    requires hp_lag { hp.old.lag < 2 ^ 60 }
    requires lp_lag { lp.old.lag < 2 ^ 60 }
    ensures passed { (s : AnySettings) (m : ℕ) (coder : TxState) (known : AnyStream → List Bool) → settings.now
        ≡ settings_at s m → HavePassed s m hp.old lp.old coder known → HavePassed s (m + 1) hp.new lp.new coder known }
{
    symbol_parameters::laws::steps();
    hp.leave_out(settings.need(Stream::Hp));
    lp.leave_out(settings.need(Stream::Lp));
}

/// Makes labels of the known bits of the streams.
fn make_labels<M: Carriers>(
    coder: &mut InnerTx<M>,
    entry: &Entry,
    odd: bool,
    hp: &mut KnownBits,
    lp: &mut KnownBits,
    labels: &mut Vec<u8>,
)
    requires hp { need (with_entry coder.old.settings entry.now) Hp ≤ length hp.old.waiting }
    requires lp { need (with_entry coder.old.settings entry.now) Lp ≤ length lp.old.waiting }
    requires hp_before { hp.old.before < 2 ^ 60 }
    requires lp_before { lp.old.before < 2 ^ 60 }
    requires spare { payload coder.old.settings.mode ≤ vec_capacity labels.old }
    ensures settings { coder.new.settings ≡ coder.old.settings }
    ensures capacity { vec_capacity labels.new ≡ vec_capacity labels.old }
    ensures hp { hp.new ≡ record hp.old {
      waiting = drop (need (with_entry coder.old.settings entry.now) Hp)
          hp.old.waiting;
      before = hp.old.before + need (with_entry coder.old.settings entry.now) Hp;
    } }
    ensures lp { lp.new ≡ record lp.old {
      waiting = drop (need (with_entry coder.old.settings entry.now) Lp)
          lp.old.waiting;
      before = lp.old.before + need (with_entry coder.old.settings entry.now) Lp;
    } }
    ensures labels { (paths : Paths) → IsBefore coder.old paths
        → take (need (with_entry coder.old.settings entry.now) Hp) hp.old.waiting
        ≡ input_bits (with_entry coder.old.settings entry.now) paths Hp
        → take (need (with_entry coder.old.settings entry.now) Lp) lp.old.waiting
        ≡ input_bits (with_entry coder.old.settings entry.now) paths Lp
        → AppendsLabels (with_entry coder.old.settings entry.now) odd
        (coded_bits (with_entry coder.old.settings entry.now) paths) [] labels.new.items }
    ensures next { (paths : Paths) → IsBefore coder.old paths
        → take (need (with_entry coder.old.settings entry.now) Hp) hp.old.waiting
        ≡ input_bits (with_entry coder.old.settings entry.now) paths Hp
        → take (need (with_entry coder.old.settings entry.now) Lp) lp.old.waiting
        ≡ input_bits (with_entry coder.old.settings entry.now) paths Lp
        → IsBefore coder.new (behind (with_entry coder.old.settings entry.now) paths) }
{
    let mut hp_bits = WaitBuf::new();
    let mut lp_bits = WaitBuf::new();
    hp.take_symbol(coder.need(entry, Stream::Hp), &mut hp_bits);
    lp.take_symbol(coder.need(entry, Stream::Lp), &mut lp_bits);
    labels.clear();
    coder.labels(entry, odd, &mut hp_bits, &mut lp_bits, labels);
}

/// Makes the labels of symbol `m` of the known bits of its streams.
pub(crate) fn remake<M: Carriers>(
    coder: &mut InnerTx<M>,
    entry: &Entry,
    m: u64,
    hp: &mut KnownBits,
    lp: &mut KnownBits,
    labels: &mut Vec<u8>,
)
    requires settings { with_entry coder.old.settings entry.now ≡ settings_at coder.old.settings m }
    requires ready { AreReady (settings_at coder.old.settings m) hp.old lp.old }
    requires registers { AreLong coder.old }
    requires hp_before { hp.old.before < 2 ^ 60 }
    requires lp_before { lp.old.before < 2 ^ 60 }
    requires spare { payload coder.old.settings.mode ≤ vec_capacity labels.old }
    ensures settings { coder.new.settings ≡ coder.old.settings }
    ensures capacity { vec_capacity labels.new ≡ vec_capacity labels.old }
    ensures registers { AreLong coder.new }
    ensures count { length labels.new.items ≡ payload (settings_at coder.old.settings m).mode }
    ensures small { (q : ℕ) → q < payload (settings_at coder.old.settings m).mode
        → slice_index labels.new.items q < 2 ^ label_bits (settings_at coder.old.settings m).shape }
    ensures remade { (known : AnyStream → List Bool) → HavePassed coder.old.settings m hp.old lp.old coder.old known
        → (q e : ℕ) → q < payload (settings_at coder.old.settings m).mode
        → e < label_bits (settings_at coder.old.settings m).shape
        → is_set (slice_index labels.new.items q) e ≡ remade_bit coder.old.settings known m q e }
    ensures passed { (known : AnyStream → List Bool) → HavePassed coder.old.settings m hp.old lp.old coder.old known
        → HavePassed coder.old.settings (m + 1) hp.new lp.new coder.new known }
{
    symbol_parameters::laws::steps();
    make_labels(coder, entry, m % 2 == 1, hp, lp, labels);
}

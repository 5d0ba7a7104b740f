// Symbols beside their remade labels.
ghost use Rattle.std.specs.Prelude.{◌≡◌, ◌≢◌, ◌+◌, ◌%◌, ◌<◌, ◌≤◌, ◌^◌, ℕ, List, Bool, IfOk, IfSome, length};
ghost use Rattle.std.specs.Prelude.{slice_index, slice_set, vec_capacity, All};
ghost use Rattle.mode_set.specs.StreamTable.{carriers, payload, label_bits};
ghost use Rattle.mode_set.specs.declared.modes.Stream.{Stream as AnyStream};
ghost use Rattle.conv_code.specs.Coded.{zeros};
ghost use Rattle.spec_words.specs.Bits.{is_set};
ghost use Rattle.measure_sums.specs.Comparing.{symbol_sums};
ghost use Rattle.measure_sums.specs.Tables.{AreLittle};
ghost use Rattle.measure_known_bits.specs.Seen.{KnownState};
ghost use Rattle.measure_known_bits.specs.Passing.{IsSettled};
ghost use Rattle.measure_comparison.specs.Seen.{SymbolState};
ghost use Rattle.measure_comparison.specs.Kept.{AreLong, IsWhole};
ghost use Rattle.measure_comparison.specs.Standing.{HavePassed, IsSummed, StandsBefore, kept_at};

use crate::history::KeptSymbol;
use crate::streams::{has_all, leave_out, pass_both, remake};
use inner_chain::InnerTx;
use measure_known_bits::KnownBits;
use measure_report::SymbolSums;
use measure_sums::sum_symbol;
use mode_set::{Carriers, Settings};
use qam_map::Cell;
use std::alloc::{AllocError, Global};
use std::marker::Model;
use symbol_parameters::parameters_of_symbol;

/// The symbols that are kept.
const KEPT: usize = 4;

/// Compares symbols in order with what the known bits of the streams stand for.
///
/// No call but `new` takes memory or is refused.
#[derive(Drop)]
pub struct Comparer<M: Carriers> {
    settings: Settings,
    coder: InnerTx<M>,
    labels: Vec<u8>,
    kept: Vec<KeptSymbol>,
    next: u64,
}

impl<M: Carriers> Model for Comparer<M> {
    ghost use Rattle.std.specs.Prelude.{vec_capacity};
    ghost use Rattle.measure_comparison.specs.Seen.{ComparerState};
    ghost use Rattle.measure_comparison.specs.Kept.{IsComparing};

    ghost Value = { ComparerState };

    ghost view = { λ x. record { settings = x.settings; coder = x.coder; kept = x.kept.items; next = x.next } };

    ghost invariant = { λ x. IsComparing M.MODE x.settings x.coder (vec_capacity x.labels) x.kept.items x.next };
}

/// Room for four symbols.
fn room_for_symbols(alloc: Global, carriers: usize) -> Result<Vec<KeptSymbol>, AllocError>
    ensures four { IfOk result (λ v. length v.items ≡ 4) }
    ensures whole { IfOk result (λ v. All (IsWhole carriers) v.items) }
{
    let mut kept = Vec::with_capacity(alloc, KEPT)?;
    for _k in 0..KEPT {
        kept.push(KeptSymbol::new(alloc, carriers)?)?;
    }
    Ok(kept)
}

/// The sums of a symbol that is kept.
fn sum_kept(settings: &Settings, l: u8, labels: &[u8], kept: &KeptSymbol) -> SymbolSums
    requires symbol { l < 68 }
    requires count { length labels.now ≡ payload settings.now.mode }
    requires small { (q : ℕ) → q < payload settings.now.mode
        → slice_index labels.now q < 2 ^ label_bits settings.now.shape }
    requires whole { IsWhole (carriers settings.now.mode) kept.now }
    ensures little { AreLittle result (payload settings.now.mode) }
    ensures sums { result ≡ symbol_sums
        (record {
          settings = settings.now;
          cells = kept.now.cells;
          weights = kept.now.weights;
          symbol = l;
          labels
              = λ q. is_set (slice_index labels.now q);
        }) }
{
    sum_symbol(settings, l, labels, kept.cells(), kept.weights())
}

/// The sums of symbol `m`, which is kept, beside what the known bits of the streams stand for: None exactly if it is
/// not compared.
fn compare_symbol<M: Carriers>(
    settings: &Settings,
    m: u64,
    kept: &KeptSymbol,
    coder: &mut InnerTx<M>,
    hp: &mut KnownBits,
    lp: &mut KnownBits,
    labels: &mut Vec<u8>,
) -> Option<SymbolSums>
    requires settings { coder.old.settings ≡ settings.now }
    requires few { m < 2 ^ 32 }
    requires whole { IsWhole (carriers settings.now.mode) kept.now }
    requires registers { AreLong coder.old }
    requires hp_before { hp.old.before < 2 ^ 60 }
    requires lp_before { lp.old.before < 2 ^ 60 }
    requires spare { payload settings.now.mode ≤ vec_capacity labels.old }
    ensures settings { coder.new.settings ≡ settings.now }
    ensures capacity { vec_capacity labels.new ≡ vec_capacity labels.old }
    ensures registers { AreLong coder.new }
    ensures little { IfSome result (λ sums. AreLittle sums (payload settings.now.mode)) }
    ensures summed { (known : AnyStream → List Bool) → HavePassed settings.now m hp.old lp.old coder.old known
        → IsSummed settings.now kept.now known m result }
    ensures passed { (known : AnyStream → List Bool) → HavePassed settings.now m hp.old lp.old coder.old known
        → HavePassed settings.now (m + 1) hp.new lp.new coder.new known }
{
    symbol_parameters::laws::settings();
    symbol_parameters::laws::steps();
    measure_sums::laws::alike_are_summed_alike();
    pass_both(coder, hp, lp);
    let entry = parameters_of_symbol(settings, m);
    let now = settings.with_entry(&entry);
    if has_all(&now, hp, lp) {
        remake(coder, &entry, m, hp, lp, labels);
        Some(sum_kept(&now, (m % 68) as u8, labels, kept))
    } else {
        leave_out(&now, hp, lp);
        None
    }
}

impl<M: Carriers> Comparer<M> {
    /// Before the first symbol. It takes all its memory, enough for any parameters of the mode; the only error is want
    /// of it.
    pub fn new(alloc: Global, settings: &Settings) -> Result<Self, AllocError>
        requires mode { settings.now.mode ≡ M.MODE }
        ensures settings { IfOk result (λ x. x.settings ≡ settings.now) }
        ensures next { IfOk result (λ x. x.next ≡ 0) }
        ensures hp { IfOk result (λ x. x.coder.hp ≡ zeros) }
        ensures lp { IfOk result (λ x. x.coder.lp ≡ zeros) }
    {
        let coder = InnerTx::new(alloc, settings)?;
        let labels = Vec::with_capacity(alloc, settings.mode.payload() as usize)?;
        let kept = room_for_symbols(alloc, settings.mode.carriers() as usize)?;
        Ok(Comparer {
            settings: *settings,
            coder,
            labels,
            kept,
            next: 0,
        })
    }

    /// Keeps the cells of a symbol and their weights in the place of those of the symbol four before.
    pub fn keep(&mut self, symbol: u64, cells: &[Cell], weights: &[u8])
        requires cells { length cells.now ≡ carriers self.old.settings.mode }
        requires weights { length weights.now ≡ carriers self.old.settings.mode }
        ensures kept { self.new ≡ record self.old {
          kept = slice_set self.old.kept (symbol % 4)
              (record { cells = cells.now; weights = weights.now });
        } }
        ensures here { (d : SymbolState) → kept_at self.new symbol d
            ≡ record { cells = cells.now; weights = weights.now } }
        ensures others { (m : ℕ) (d : SymbolState) → m % 4 ≢ symbol % 4 → kept_at self.new m d ≡ kept_at self.old m d }
        ensures stands { (m : ℕ) (hp lp : KnownState) (known : AnyStream → List Bool)
            → StandsBefore m self.old hp lp known → StandsBefore m self.new hp lp known }
    {
        self.kept[(symbol % 4) as usize].put(cells, weights);
    }

    /// The number of the next symbol to be compared.
    pub fn next(&self) -> u64
        ensures number { result ≡ self.now.next }
    {
        self.next
    }

    /// The sums of the next symbol beside what the known bits of the streams stand for: None exactly if it is not
    /// compared.
    ///
    /// The symbol is one of the four that are kept, and fewer than 2^32 symbols were compared or left out. The
    /// encoders pass the known bits of a symbol that is left out.
    pub fn compare(&mut self, hp: &mut KnownBits, lp: &mut KnownBits) -> Option<SymbolSums>
        requires few { self.old.next < 2 ^ 32 }
        requires hp_before { hp.old.before < 2 ^ 60 }
        requires lp_before { lp.old.before < 2 ^ 60 }
        ensures settings { self.new.settings ≡ self.old.settings }
        ensures next { self.new.next ≡ self.old.next + 1 }
        ensures kept { self.new.kept ≡ self.old.kept }
        ensures hp_settled { IsSettled hp.new }
        ensures lp_settled { IsSettled lp.new }
        ensures little { IfSome result (λ sums. AreLittle sums (payload self.old.settings.mode)) }
        ensures summed { (m : ℕ) (known : AnyStream → List Bool) (d : SymbolState)
            → StandsBefore m self.old hp.old lp.old known → IsSummed self.old.settings (kept_at self.old m d) known m
            result }
        ensures stands { (m : ℕ) (known : AnyStream → List Bool) → StandsBefore m self.old hp.old lp.old known
            → StandsBefore (m + 1) self.new hp.new lp.new known }
    {
        let m = self.next;
        self.next += 1;
        let sums = compare_symbol(
            &self.settings,
            m,
            &self.kept[(m % 4) as usize],
            &mut self.coder,
            hp,
            lp,
            &mut self.labels,
        );
        pass_both(&mut self.coder, hp, lp);
        sums
    }
}

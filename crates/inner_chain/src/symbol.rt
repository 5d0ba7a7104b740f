// The two steps of the inner coding of a symbol: all parities, and the labels that they make.
ghost use Rattle.std.specs.Prelude.{◌≡◌, ◌+◌, ◌*◌, ◌≤◌, take, drop, length, vec_capacity, vec_len};
ghost use Rattle.mode_set.specs.StreamTable.{need, payload};
ghost use Rattle.mode_set.specs.declared.modes.Stream.TheVariants.{Hp, Lp};
ghost use Rattle.mode_set.specs.declared.settings.Settings.{Settings as AnySettings};
ghost use Rattle.inner_chain.specs.Labels.{AppendsLabels, IsBefore, Paths, behind, coded_bits, input_bits};
ghost use Rattle.inner_chain.specs.Tables.{AreAllParities, AreEntries, AreRows, most_steps};

use crate::fours::{has_fours, push_fours};
use crate::gather::push_labels;
use crate::parities::encode;
use crate::twos::{has_twos, push_twos};
use bit_pack::WaitBuf;
use conv_code::Encoder;
use mode_set::{Carriers, Settings, Shape, Stream};
use symbol_interleave::Permutation;

// Takes the input bits of a symbol of each stream, and writes the parities of HP's steps and then
// those of LP's.
pub(crate) fn code(
    settings: &Settings,
    rows: &[[bool; 8]],
    hp: &mut WaitBuf,
    hp_encoder: &mut Encoder,
    lp: &mut WaitBuf,
    lp_encoder: &mut Encoder,
    parities: &mut [bool],
)
    requires rows { AreRows rows.now 1024 }
    requires hp { need settings.now Hp ≤ length hp.old }
    requires lp { need settings.now Lp ≤ length lp.old }
    requires room { 2 * most_steps settings.now.mode ≤ length parities.old }
    ensures hp { hp.new ≡ drop (need settings.now Hp) hp.old }
    ensures lp { lp.new ≡ drop (need settings.now Lp) lp.old }
    ensures hp_size { length hp_encoder.old ≡ 6 → length hp_encoder.new ≡ 6 }
    ensures lp_size { length lp_encoder.old ≡ 6 → length lp_encoder.new ≡ 6 }
    ensures parities { (s : AnySettings) (paths : Paths) → IsBefore (record
        { settings = s; hp = hp_encoder.old; lp = lp_encoder.old }) paths
        → take (need settings.now Hp) hp.old ≡ input_bits settings.now paths Hp → take (need settings.now Lp) lp.old
        ≡ input_bits settings.now paths Lp
        → AreAllParities settings.now paths parities.new }
    ensures next { (s : AnySettings) (paths : Paths) → IsBefore (record
        { settings = s; hp = hp_encoder.old; lp = lp_encoder.old }) paths
        → take (need settings.now Hp) hp.old ≡ input_bits settings.now paths Hp → take (need settings.now Lp) lp.old
        ≡ input_bits settings.now paths Lp
        → IsBefore (record { settings = s; hp = hp_encoder.new; lp = lp_encoder.new }) (behind settings.now paths) }
{
    let hp_steps = settings.need(Stream::Hp) as usize;
    let lp_steps = settings.need(Stream::Lp) as usize;
    encode(rows, hp, hp_encoder, parities, 0, hp_steps);
    encode(rows, lp, lp_encoder, parities, hp_steps, lp_steps);
}

// Appends the labels of a symbol of even or of odd number, each bit by its entry: for any parameters.
pub(crate) fn push_gathered(
    settings: &Settings,
    odd: bool,
    entries: &[u16],
    parities: &[bool],
    to: &mut Vec<u8>,
)
    requires entries { AreEntries settings.now odd entries.now }
    requires room { 2 * most_steps settings.now.mode ≤ length parities.now }
    requires spare { vec_len to.old + payload settings.now.mode ≤ vec_capacity to.old }
    ensures labels { (paths : Paths) → AreAllParities settings.now paths parities.now
        → AppendsLabels settings.now odd (coded_bits settings.now paths) to.old.items to.new.items }
    ensures capacity { vec_capacity to.new ≡ vec_capacity to.old }
{
    let number = settings.mode.payload() as usize;
    match settings.shape {
        Shape::Qpsk => push_labels::<2>(parities, entries, number, to),
        Shape::Qam16 => push_labels::<4>(parities, entries, number, to),
        Shape::Qam64 => push_labels::<6>(parities, entries, number, to),
    }
}

// Appends the labels of a symbol of even or of odd number.
pub(crate) fn push_symbol<M: Carriers>(
    settings: &Settings,
    odd: bool,
    entries: &[u16],
    parities: &[bool],
    permutation: &Permutation<M>,
    to: &mut Vec<u8>,
)
    requires mode { settings.now.mode ≡ M.MODE }
    requires entries { AreEntries settings.now odd entries.now }
    requires room { 2 * most_steps settings.now.mode ≤ length parities.now }
    requires spare { vec_len to.old + payload settings.now.mode ≤ vec_capacity to.old }
    ensures labels { (paths : Paths) → AreAllParities settings.now paths parities.now
        → AppendsLabels settings.now odd (coded_bits settings.now paths) to.old.items to.new.items }
    ensures capacity { vec_capacity to.new ≡ vec_capacity to.old }
{
    if has_fours(settings) {
        push_fours(settings, odd, parities, permutation, to);
    } else if has_twos(settings) {
        push_twos(settings, odd, parities, permutation, to);
    } else {
        push_gathered(settings, odd, entries, parities, to);
    }
}

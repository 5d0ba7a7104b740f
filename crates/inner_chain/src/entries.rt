// The entries of the tables from which labels are gathered.
ghost use Rattle.std.specs.Prelude.{◌≡◌, ◌+◌, ◌*◌, ◌<◌, ◌≤◌, IfOk, vec_capacity, vec_len};
ghost use Rattle.mode_set.specs.StreamTable.{label_bits, need, payload};
ghost use Rattle.inner_chain.specs.Tables.{AppendsEntries, AreWordEntries, IsEntry, IsLabelTable, first_step};

use crate::sent_parity::parity_of;
use bit_interleave::bit_at;
use bit_interleave::laws::each_bit_is_found;
use mode_set::{Carriers, Settings, Stream};
use std::alloc::{AllocError, Global};
use symbol_interleave::Permutation;

// The first of a stream's steps among those of both streams: HP's come before LP's.
pub(crate) fn first_step_of(settings: &Settings, stream: Stream) -> u32
    ensures first { result ≡ first_step settings.now stream }
    ensures few { result ≤ 31752 }
{
    match stream {
        Stream::Hp => 0,
        Stream::Lp => settings.need(Stream::Hp),
    }
}

// The parity that stands at place `e` of a word's label: twice its step, and one more for a Y.
fn entry(settings: &Settings, e: u8, word: u32) -> u16
    requires place { e < label_bits settings.now.shape }
    requires word { word < payload settings.now.mode }
    ensures { IsEntry settings.now e word result }
{
    each_bit_is_found();
    let (stream, bit) = bit_at(settings.shape, settings.hierarchy, e, word);
    let parity = parity_of(settings.rate(stream), bit);
    let step = first_step_of(settings, stream) + parity.step;
    (2 * step + parity.is_y as u32) as u16
}

fn push_word(settings: &Settings, word: u32, to: &mut Vec<u16>)
    requires word { word < payload settings.now.mode }
    requires spare { vec_len to.old + label_bits settings.now.shape ≤ vec_capacity to.old }
    ensures entries { AppendsEntries settings.now word (label_bits settings.now.shape) to.old.items to.new.items }
    ensures capacity { vec_capacity to.new ≡ vec_capacity to.old }
{
    for e in 0..settings.shape.label_bits() {
        to.push_reserved(entry(settings, e, word));
    }
}

// Puts the entries of the labels of all symbols of even or of odd number in the place of what stood in
// the table.
pub(crate) fn write_entries<M: Carriers>(
    settings: &Settings,
    odd: bool,
    permutation: &Permutation<M>,
    table: &mut Vec<u16>,
)
    requires mode { settings.now.mode ≡ M.MODE }
    requires spare { 6 * payload settings.now.mode ≤ vec_capacity table.old }
    ensures { IsLabelTable settings.now odd table.new.items (vec_capacity table.new) }
{
    table.clear();
    for q in 0..settings.mode.payload() {
        push_word(settings, permutation.source(odd, q), table);
    }
}

// Puts the entries of the labels of the words of all symbols in the place of what stood in the table.
pub(crate) fn write_word_entries(settings: &Settings, table: &mut Vec<u16>)
    requires spare { 6 * payload settings.now.mode ≤ vec_capacity table.old }
    ensures entries { AreWordEntries settings.now table.new.items }
    ensures capacity { vec_capacity table.new ≡ vec_capacity table.old }
{
    table.clear();
    for word in 0..settings.mode.payload() {
        push_word(settings, word, table);
    }
}

// The table for these parameters, in room for those of any.
pub(crate) fn label_table<M: Carriers>(
    alloc: Global,
    settings: &Settings,
    odd: bool,
    permutation: &Permutation<M>,
) -> Result<Vec<u16>, AllocError>
    requires { settings.now.mode ≡ M.MODE }
    ensures { IfOk result (λ table. IsLabelTable settings.now odd table.items (vec_capacity table)) }
{
    let mut table = Vec::with_capacity(alloc, 6 * settings.mode.payload() as usize)?;
    write_entries(settings, odd, permutation, &mut table);
    Ok(table)
}

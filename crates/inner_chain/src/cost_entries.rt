// Which costs of the cells of a block are those of each step.
ghost use Rattle.std.specs.Prelude.{◌≡◌, ◌+◌, ◌*◌, ◌<◌, ◌≤◌, IfOk, Some, None, if◌then◌else◌, vec_capacity, vec_len};
ghost use Rattle.mode_set.specs.StreamTable.{payload};
ghost use Rattle.puncture.specs.Steps.{has_x, has_y};
ghost use Rattle.inner_chain.specs.CostTables.{AppendsTwo, AreCarriers, IsCostTable, IsPlaced, IsSmallEntry};
ghost use Rattle.inner_chain.specs.CostTables.{block_coded, block_steps, blocks, count_of, entry_at, most_block_steps};
ghost use Rattle.inner_chain.specs.CostTables.{most_places, second};

use bit_interleave::place;
use mode_set::{Carriers, Mode, Settings, Stream};
use pilots::carrier;
use puncture::{Sent, sent, steps_are_numbered};
use std::alloc::{AllocError, Global};
use symbol_interleave::Permutation;

// The words of a block: two blocks of the bit interleavers (EN 300 744, 4.3.4.1).
pub(crate) const BLOCK_WORDS: usize = 252;

// The costs of a block at a place of the label: those of its words, and four more, so that they are sixteens.
pub(crate) const ROW: usize = 256;

// The words of a run: the offsets of all bit interleavers are multiples of it (EN 300 744, 4.3.4.1).
pub(crate) const RUN_WORDS: usize = 21;

// The entry of an unsent bit: the one after the costs of the most places.
pub(crate) const NO_ENTRY: u16 = 1536;

// The blocks of a symbol.
pub(crate) fn blocks(mode: Mode) -> u32
    ensures { result ≡ blocks mode }
{
    match mode {
        Mode::M2k => 6,
        Mode::M8k => 24,
    }
}

// The steps of a stream in a block.
pub(crate) fn block_steps(settings: &Settings, stream: Stream) -> u32
    ensures steps { result ≡ block_steps settings.now stream }
    ensures few { result ≤ most_block_steps }
{
    settings.need(stream) / blocks(settings.mode)
}

// The entry of a coded bit of the first block: its place in the label times the costs of a place, and its word.
fn bit_entry(settings: &Settings, stream: Stream, bit: u32) -> u16
    requires within { bit < block_coded settings.now stream }
    ensures is { result ≡ entry_at settings.now stream (Some bit) }
    ensures placed { IsPlaced settings.now stream (Some bit) }
    ensures small { IsSmallEntry result }
{
    let (e, word) = place(settings.shape, settings.hierarchy, stream, bit);
    (ROW as u32 * e as u32 + word) as u16
}

// Appends the entries of X and Y of a step whose first sent bit has the number `bit`, and answers
// the number of the next step's first.
fn push_step(settings: &Settings, stream: Stream, sent: Sent, bit: u32, to: &mut Vec<u16>) -> u32
    requires spare { vec_len to.old + 2 ≤ vec_capacity to.old }
    requires within { bit + count_of (has_x sent) + count_of (has_y sent) ≤ block_coded settings.now stream }
    ensures next { result ≡ bit + count_of (has_x sent) + count_of (has_y sent) }
    ensures entries { AppendsTwo settings.now stream (if has_x sent then Some bit else None)
        (if has_y sent then Some (second (has_x sent) bit) else None) to.old.items to.new.items }
    ensures capacity { vec_capacity to.new ≡ vec_capacity to.old }
{
    match sent {
        Sent::Both => {
            to.push_reserved(bit_entry(settings, stream, bit));
            to.push_reserved(bit_entry(settings, stream, bit + 1));
            bit + 2
        }
        Sent::OnlyX => {
            to.push_reserved(bit_entry(settings, stream, bit));
            to.push_reserved(NO_ENTRY);
            bit + 1
        }
        Sent::OnlyY => {
            to.push_reserved(NO_ENTRY);
            to.push_reserved(bit_entry(settings, stream, bit));
            bit + 1
        }
    }
}

// Replaces what stood in the table by the entries of the steps of a stream in a block.
pub(crate) fn write_cost_entries(settings: &Settings, stream: Stream, table: &mut Vec<u16>)
    requires spare { 2 * most_block_steps ≤ vec_capacity table.old }
    ensures { IsCostTable settings.now stream table.new.items (vec_capacity table.new) }
{
    steps_are_numbered();
    let rate = settings.rate(stream);
    table.clear();
    let mut bit = 0;
    for step in 0..block_steps(settings, stream) {
        bit = push_step(settings, stream, sent(rate, step as u64), bit, table);
    }
}

// The table of a stream for these parameters, in room for those of any.
pub(crate) fn cost_table(
    alloc: Global,
    settings: &Settings,
    stream: Stream,
) -> Result<Vec<u16>, AllocError>
    ensures { IfOk result (λ table. IsCostTable settings.now stream table.items (vec_capacity table)) }
{
    let mut table = Vec::with_capacity(alloc, 21 * BLOCK_WORDS / 2)?;
    write_cost_entries(settings, stream, &mut table);
    Ok(table)
}

// The carriers of the words of the symbols 0 to 3, one symbol after another.
pub(crate) fn carriers_of<M: Carriers>(
    alloc: Global,
    permutation: &Permutation<M>,
) -> Result<Vec<u16>, AllocError>
    ensures { IfOk result (λ list. AreCarriers M.MODE (4 * payload M.MODE) list.items) }
{
    let payload = M::MODE.payload();
    let mut list = Vec::with_capacity(alloc, 4 * payload as usize)?;
    for k in 0..4 * payload {
        let l = (k / payload) as u8;
        let q = permutation.target(l % 2 == 1, k % payload);
        list.push(carrier(M::MODE, l, q) as u16)?;
    }
    Ok(list)
}

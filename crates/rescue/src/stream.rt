// The reception of one stream with rescue, symbol by symbol.
ghost use Rattle.std.specs.Prelude.{◌≡◌, ◌+◌, ◌<◌, ◌≤◌, ◌^◌, ◌++◌, [], ℕ, List, Bool, false, length, vec_len};
ghost use Rattle.std.specs.Prelude.{vec_capacity, IfOk};
ghost use Rattle.std.specs.declared.option.Option.{Option};
ghost use Rattle.code_paths.specs.declared.costs.CostPair.{CostPair as Pair};
ghost use Rattle.inner_decoder.specs.Events.{ats};
ghost use Rattle.inner_decoder.specs.Running.{BranchState};
ghost use Rattle.inner_receiver.specs.Branches.{HasTaken};
ghost use Rattle.reception.specs.Streams.{so_far, at_end, start_of};
ghost use Rattle.rescue_words.specs.Rescued.{RescueTally};
ghost use Rattle.rescue.specs.Streams.{no_words};
ghost use Rattle.rescue.specs.Standing.{StreamStands, StreamGave};
ghost use Rattle.rescue.specs.Kept.{AreFew, HasRoom, IsReady, RanFrom, seen};

use crate::StreamCounts;
use crate::blocks::{end_margins, push_pairs};
use crate::queues::{give_words, pass_bytes};
use bit_margin::Margins;
use conv_code::CostPair;
use inner_receiver::{StreamBranch, begin, end, start_state};
use mode_set::Start;
use rescue_words::RescueWords;
use std::alloc::{AllocError, Global};

/// Space for the bytes of a symbol, and for those still pending.
const BYTES: usize = 4608;

/// The most bit margins computed at once.
const BLOCK: usize = 1279;

/// The decoder of one stream, the margins of its bits, and what both become: bytes with margins, words, packets and
/// counts.
#[derive(Drop)]
pub(crate) struct StreamRx {
    pub(crate) branch: StreamBranch,
    pub(crate) margins: Margins,
    // The margins of the bits of a block.
    pub(crate) block: Vec<u32>,
    // The bytes and the margins of bytes; one of the two queues waits for the other.
    pub(crate) bytes: Vec<u8>,
    pub(crate) byte_margins: Vec<u32>,
    pub(crate) words: RescueWords,
    pub(crate) unmerged: u64,
}

impl StreamRx {
    /// A stream that has received nothing. The only error is lack of memory.
    pub(crate) fn new(alloc: Global, start: Start) -> Result<Self, AllocError>
        ensures ready { IfOk result (λ x. IsReady x) }
        ensures steps { IfOk result (λ x. x.branch.decoder.steps ≡ 0) }
        ensures counts { IfOk result (λ x. AreFew (seen x) 0) }
        ensures stands { IfOk result (λ x. StreamStands so_far (seen x) (start_of start) [] [] no_words []) }
    {
        Ok(StreamRx {
            branch: begin(alloc, start)?,
            margins: Margins::new(alloc, start_state(start))?,
            block: Vec::with_capacity(alloc, BLOCK)?,
            bytes: Vec::with_capacity(alloc, BYTES)?,
            byte_margins: Vec::with_capacity(alloc, BYTES)?,
            words: RescueWords::new(alloc)?,
            unmerged: 0,
        })
    }

    /// Processes the decoder's output for a symbol, given the symbol's pairs: computes the margins then known, finishes
    /// the words with all bits and margins, appends their packets, and counts the reports.
    pub(crate) fn deliver(&mut self, pairs: &[CostPair], to: &mut Vec<u8>)
        requires going { self.old.margins.ended ≡ false }
        requires room_kept { HasRoom self.old }
        requires counts { AreFew (seen self.old) (2 ^ 60) }
        requires few { length pairs.now ≤ 31752 }
        requires room { vec_len to.old + 4512 ≤ vec_capacity to.old }
        requires ran { RanFrom pairs.now self.old }
        ensures ready { IsReady self.new }
        ensures rest { self.new.branch ≡ record self.old.branch { wait = self.new.branch.wait } }
        ensures counts { (n : ℕ) → AreFew (seen self.old) n → AreFew (seen self.new) (n + 4400) }
        ensures capacity { vec_capacity to.new ≡ vec_capacity to.old }
        ensures fed { (before : BranchState) → HasTaken pairs.now before self.old.branch
            → (a : Option (List Bool)) (c : List Pair) (given : List ℕ) (tally : RescueTally) (steps : List ℕ)
            → StreamStands so_far (record (seen self.old) { branch = before }) a c given tally steps
            → StreamGave so_far (seen self.new) a (c ++ pairs.now) given (steps ++ ats self.new.branch.events)
            to.old.items to.new.items }
    {
        push_pairs(
            &mut self.margins,
            pairs,
            &mut self.block,
            &mut self.byte_margins,
        );
        pass_bytes(&mut self.branch, &mut self.bytes);
        give_words(&mut self.bytes, &mut self.byte_margins, &mut self.words, to);
        self.unmerged += self.branch.events().len() as u64;
    }

    /// Decodes the rest, computes all margins, and appends the packets of the words then complete.
    pub(crate) fn finish(&mut self, to: &mut Vec<u8>)
        requires ready { IsReady self.old }
        requires counts { AreFew (seen self.old) (2 ^ 60) }
        requires room { vec_len to.old + 4512 ≤ vec_capacity to.old }
        ensures capacity { vec_capacity to.new ≡ vec_capacity to.old }
        ensures ended_stream { (a : Option (List Bool)) (c : List Pair) (given : List ℕ) (tally : RescueTally)
            (steps : List ℕ) → StreamStands so_far (seen self.old) a c given tally steps
            → StreamGave at_end (seen self.new) a c given steps to.old.items to.new.items }
    {
        end(&mut self.branch);
        end_margins(&mut self.margins, &mut self.block, &mut self.byte_margins);
        pass_bytes(&mut self.branch, &mut self.bytes);
        give_words(&mut self.bytes, &mut self.byte_margins, &mut self.words, to);
    }
    /// The counts of the stream.
    pub(crate) fn counts(&self) -> StreamCounts
        ensures { result ≡ record { words = self.now.words.counts; unmerged = self.now.unmerged } }
    {
        StreamCounts {
            words: self.words.counts(),
            unmerged: self.unmerged,
        }
    }
}

// The sums of a super-frame, symbol after symbol.
ghost use Rattle.std.specs.Prelude.{◌≡◌, ◌+◌, ◌*◌, ◌<◌, ◌≤◌, ◌^◌, IfSome, Some};
ghost use Rattle.measure_sums.specs.Tables.{AreLittle};
ghost use Rattle.measurer.specs.Sums.{nothing_of, with_symbol};

use inner_receiver::FrameReader;
use measure_report::{BitSums, SymbolSums};

/// The super-frame whose lines come next: the sums of its symbols so far, and the TPS words of the frames before it.
#[derive(Clone, Copy, Debug, Drop, PartialEq, Eq)]
pub struct Current {
    /// Its number, from 0.
    pub number: u64,
    /// Its symbols that were compared.
    pub symbols: u64,
    /// Their sums.
    pub sums: SymbolSums,
    /// The frames before it whose TPS word was read.
    pub read_before: u64,
    /// The other frames before it.
    pub bad_before: u64,
}

fn add_bits(sums: &mut BitSums, more: &BitSums)
    requires bits { sums.old.bits + more.now.bits < 2 ^ 60 }
    requires wrong { sums.old.wrong + more.now.wrong < 2 ^ 60 }
    ensures bits { sums.new.bits ≡ sums.old.bits + more.now.bits }
    ensures wrong { sums.new.wrong ≡ sums.old.wrong + more.now.wrong }
{
    sums.bits += more.bits;
    sums.wrong += more.wrong;
}

impl Current {
    /// The first super-frame.
    pub(crate) fn first() -> Current
        ensures is { result ≡ nothing_of 0 0 0 }
    {
        Current {
            number: 0,
            symbols: 0,
            sums: SymbolSums::default(),
            read_before: 0,
            bad_before: 0,
        }
    }

    /// A super-frame of this number before which the reader has counted the words of all frames.
    pub(crate) fn at(number: u64, frames: &FrameReader) -> Current
        ensures is { result ≡ nothing_of number frames.now.read frames.now.bad }
    {
        Current {
            number,
            symbols: 0,
            sums: SymbolSums::default(),
            read_before: frames.read,
            bad_before: frames.bad,
        }
    }

    /// Adds the sums of a symbol.
    fn add_symbol(&mut self, more: &SymbolSums)
        requires symbols { self.old.symbols < 272 }
        requires little { AreLittle self.old.sums (6048 * self.old.symbols) }
        requires symbol { AreLittle more.now 6048 }
        ensures added { self.new ≡ with_symbol self.old (Some more.now) }
    {
        self.symbols += 1;
        self.sums.cells += more.cells;
        self.sums.muted += more.muted;
        self.sums.power += more.power;
        self.sums.error += more.error;
        add_bits(&mut self.sums.hp, &more.hp);
        add_bits(&mut self.sums.lp, &more.lp);
    }

    /// Adds a symbol, if it was compared.
    pub(crate) fn add(&mut self, symbol: &Option<SymbolSums>)
        requires symbols { self.old.symbols < 272 }
        requires little { AreLittle self.old.sums (6048 * self.old.symbols) }
        requires symbol { IfSome symbol.now (λ sums. AreLittle sums 6048) }
        ensures added { self.new ≡ with_symbol self.old symbol.now }
    {
        if let Some(more) = symbol {
            self.add_symbol(more);
        }
    }
}

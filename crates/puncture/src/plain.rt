// Puncturing step by step, and back: the definition's programs, which tests run beside the faster bodies.
ghost use Rattle.std.specs.Prelude.{◌≡◌, ◌+◌, ◌*◌, ◌<◌, ◌≤◌, ℕ, Bool, [], ◌++◌, length, if◌then◌else◌};
ghost use Rattle.code_paths.specs.Paths.{parity_x, parity_y};
ghost use Rattle.puncture.specs.SentBits.{X, Y, window, sent_bits};
ghost use Rattle.puncture.specs.Steps.{sent_before, bits_sent, bits_of_step, IsAtStep, has_x, has_y};
ghost use Rattle.puncture.specs.Steps.{needed, costs_of_x, costs_of_y, costs_at, number_of};
ghost use Rattle.mode_set.specs.declared.modes.Rate.{Rate as AnyRate};

use crate::Sent;
use crate::rule::{next_place, sent_in_place};
use bit_pack::BitBuf;
use conv_code::CostPair;
use mode_set::Rate;
use std::marker::Model;

// Appends what is sent of a step.
fn push_sent<const N: usize>(sent: Sent, coded: (bool, bool), to: &mut BitBuf<N>)
    requires room { length to.old + 2 ≤ 8 * N }
    ensures bits { to.new ≡ to.old ++ bits_sent (has_x sent) (has_y sent) coded.0 coded.1 }
    ensures few { length to.new ≤ length to.old + 2 }
{
    match sent {
        Sent::Both => {
            to.push_bit(coded.0);
            to.push_bit(coded.1);
        }
        Sent::OnlyX => to.push_bit(coded.0),
        Sent::OnlyY => to.push_bit(coded.1),
    }
}

/// A puncturer of one rate: of the coded bits of each step it sends those of the table (EN 300 744, 4.3.3).
///
/// It is seen as its rate and the steps of the period that are done.
#[derive(Debug, Drop)]
pub struct Puncturer {
    rate: Rate,
    place: u8,
}

impl Model for Puncturer {
    ghost use Rattle.std.specs.Prelude.{◌<◌};
    ghost use Rattle.mode_set.specs.StreamTable.{steps_in_period};
    ghost use Rattle.puncture.specs.Steps.{Place};

    ghost Value = { Place };

    ghost view = { λ p. record { rate = p.rate; step = p.place } };

    ghost invariant = { λ p. p.place < steps_in_period p.rate };
}

impl Puncturer {
    /// The puncturer before the first step of a stream.
    pub fn start(rate: Rate) -> Puncturer
        ensures at { IsAtStep result rate 0 }
        ensures none { (path : ℕ → Bool) → sent_bits rate path 0 (sent_before rate 0) ≡ [] }
    {
        Puncturer { rate, place: 0 }
    }

    /// Appends what is sent of a step, whose X and Y are given. There must be room for two bits.
    ///
    /// If they are the coded bits of step `t` of a path, its next sent bits are appended. So a queue that holds sent
    /// bits of the path, from any number on, goes on to hold them.
    pub fn push<const N: usize>(&mut self, coded: (bool, bool), to: &mut BitBuf<N>)
        requires room { length to.old + 2 ≤ 8 * N }
        ensures bits { to.new ≡ to.old ++ bits_of_step self.old.rate self.old.step coded.0 coded.1 }
        ensures few { length to.new ≤ length to.old + 2 }
        ensures next { (r : AnyRate) (t : ℕ) → IsAtStep self.old r t → IsAtStep self.new r (t + 1) }
        ensures sent { (r : AnyRate) (path : ℕ → Bool) (t : ℕ) → IsAtStep self.old r t
            → coded.0 ≡ parity_x (window path t) → coded.1 ≡ parity_y (window path t)
            → to.new ≡ to.old ++ sent_bits r path (sent_before r t) (sent_before r (t + 1)) }
        ensures holds { (r : AnyRate) (path : ℕ → Bool) (t a : ℕ) → IsAtStep self.old r t
            → coded.0 ≡ parity_x (window path t) → coded.1 ≡ parity_y (window path t)
            → a ≤ sent_before r t → to.old ≡ sent_bits r path a (sent_before r t)
            → to.new ≡ sent_bits r path a (sent_before r (t + 1)) }
    {
        push_sent(sent_in_place(self.rate, self.place), coded, to);
        self.place = next_place(self.rate, self.place);
    }
}

/// The way back from a puncturer of one rate: it gives each step the costs of its two coded bits.
///
/// It is seen as its rate and the steps of the period that are done.
#[derive(Debug, Drop)]
pub struct Depuncturer {
    rate: Rate,
    place: u8,
}

impl Model for Depuncturer {
    ghost use Rattle.std.specs.Prelude.{◌<◌};
    ghost use Rattle.mode_set.specs.StreamTable.{steps_in_period};
    ghost use Rattle.puncture.specs.Steps.{Place};

    ghost Value = { Place };

    ghost view = { λ p. record { rate = p.rate; step = p.place } };

    ghost invariant = { λ p. p.place < steps_in_period p.rate };
}

impl Depuncturer {
    /// The depuncturer before the first step of a stream.
    pub fn start(rate: Rate) -> Depuncturer
        ensures at { IsAtStep result rate 0 }
        ensures none { sent_before rate 0 ≡ 0 }
    {
        Depuncturer { rate, place: 0 }
    }

    /// How many sent bits the next step has, 1 or 2.
    pub fn needs(&self) -> u8
        ensures number { result ≡ needed self.now.rate self.now.step }
        ensures some { 1 ≤ result }
        ensures few { result ≤ 2 }
        ensures step { (r : AnyRate) (t : ℕ) → IsAtStep self.now r t → result ≡ needed r t }
    {
        match sent_in_place(self.rate, self.place) {
            Sent::Both => 2,
            Sent::OnlyX | Sent::OnlyY => 1,
        }
    }

    /// The costs of the next step's X and Y, out of the costs of the next sent bits, each bit's for 0 and for 1.
    ///
    /// A bit that is not sent costs 0 either way, and `second` is not used if one bit is needed. Each cost is at most
    /// 4095.
    pub fn pair(&mut self, first: (u16, u16), second: (u16, u16)) -> CostPair
        requires first { (first.0 ≤ 4095) × (first.1 ≤ 4095) }
        requires second { (second.0 ≤ 4095) × (second.1 ≤ 4095) }
        ensures x { (result.x0, result.x1) ≡ costs_of_x self.old.rate self.old.step first second }
        ensures y { (result.y0, result.y1) ≡ costs_of_y self.old.rate self.old.step first second }
        ensures next { (r : AnyRate) (t : ℕ) → IsAtStep self.old r t → IsAtStep self.new r (t + 1) }
        ensures numbered { (r : AnyRate) (costs : ℕ → ℕ × ℕ) (t : ℕ) → IsAtStep self.old r t
            → first ≡ costs (sent_before r t) → (needed r t ≡ 2 → second ≡ costs (sent_before r t + 1))
            → ((result.x0, result.x1) ≡ costs_at costs (number_of r X t))
            × ((result.y0, result.y1) ≡ costs_at costs (number_of r Y t)) }
    {
        let sent = sent_in_place(self.rate, self.place);
        self.place = next_place(self.rate, self.place);
        pair_of(sent, first, second)
    }
}

// The costs of a step of which this is sent.
fn pair_of(sent: Sent, first: (u16, u16), second: (u16, u16)) -> CostPair
    requires first { (first.0 ≤ 4095) × (first.1 ≤ 4095) }
    requires second { (second.0 ≤ 4095) × (second.1 ≤ 4095) }
    ensures x { (result.x0, result.x1) ≡ (if has_x sent then first else (0, 0)) }
    ensures y { (result.y0, result.y1) ≡ (if has_y sent then (if has_x sent then second else first) else (0, 0)) }
{
    let none = (0, 0);
    let (x, y) = match sent {
        Sent::Both => (first, second),
        Sent::OnlyX => (first, none),
        Sent::OnlyY => (none, first),
    };
    CostPair {
        x0: x.0,
        x1: x.1,
        y0: y.0,
        y1: y.1,
    }
}

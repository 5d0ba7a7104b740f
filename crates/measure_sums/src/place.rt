// What one payload place adds to the sums.
ghost use Rattle.std.specs.Prelude.{◌≡◌, ◌+◌, ◌<◌, ◌≤◌, ◌^◌, ℕ, false, nat_abs, slice_index_or};
ghost use Rattle.spec_words.specs.Bits.{is_set};
ghost use Rattle.mode_set.specs.StreamTable.{label_bits};
ghost use Rattle.mode_set.specs.declared.modes.Stream.TheVariants.{Hp, Lp};
ghost use Rattle.bit_interleave.specs.Place.{stream_at};
ghost use Rattle.qam_map.specs.Points.{distance};
ghost use Rattle.hard_decision.specs.Hard.{hard_bit};
ghost use Rattle.measure_sums.specs.Comparing.{is_same, power_of, squared_distance};
ghost use Rattle.measure_sums.specs.Tables.{AreLittle, bits_of_label, counted_sums, muted_sums, place_adds};
ghost use Rattle.measure_sums.specs.Tables.{wrong_among};

use crate::tables::points_of;
use hard_decision::HardDecision;
use measure_report::{BitSums, SymbolSums};
use mode_set::{Hierarchy, Shape, Stream};
use qam_map::Cell;
use std::marker::Model;

fn bit_of(label: u8, place: u8) -> bool
    requires { place < 8 }
    ensures { result ≡ is_set label place }
{
    (label >> place) & 1 == 1
}

fn squared(x: i16) -> u64
    ensures is { result ≡ nat_abs x ^ 2 }
    ensures few { result ≤ 2 ^ 30 }
{
    let magnitude = x.unsigned_abs() as u64;
    magnitude * magnitude
}

fn squared_gap(x: i16, y: i16) -> u64
    ensures is { result ≡ distance x y ^ 2 }
    ensures few { result ≤ 2 ^ 32 }
{
    let gap = (x as i32 - y as i32).unsigned_abs() as u64;
    gap * gap
}

pub(crate) fn power(cell: Cell) -> u64
    ensures is { result ≡ power_of cell }
    ensures few { result ≤ 2 ^ 31 }
{
    squared(cell.re) + squared(cell.im)
}

pub(crate) fn error(received: Cell, point: Cell) -> u64
    ensures is { result ≡ squared_distance received point }
    ensures few { result ≤ 2 ^ 33 }
{
    squared_gap(received.re, point.re) + squared_gap(received.im, point.im)
}

// The hard decisions for the six places of a label.
fn hard_bits(decision: &HardDecision, cell: Cell) -> [bool; 6]
    ensures { (e : ℕ) → e < 6 → slice_index_or result e false ≡ hard_bit decision.now.0 decision.now.1 cell e }
{
    let re = decision.bits(cell.re);
    let im = decision.bits(cell.im);
    [re[0], im[0], re[1], im[1], re[2], im[2]]
}

// The bits at the six places of a label.
fn sent_bits(label: u8) -> [bool; 6]
    ensures { (e : ℕ) → e < 6 → slice_index_or result e false ≡ is_set label e }
{
    [
        bit_of(label, 0),
        bit_of(label, 1),
        bit_of(label, 2),
        bit_of(label, 3),
        bit_of(label, 4),
        bit_of(label, 5),
    ]
}

// The stream that place `e` of the labels carries.
fn stream_of(hierarchy: Hierarchy, e: u8) -> Stream
    ensures { result ≡ stream_at hierarchy e }
{
    if hierarchy.is_flat() || e < 2 {
        Stream::Hp
    } else {
        Stream::Lp
    }
}

fn are_same(one: Stream, other: Stream) -> bool
    ensures { result ≡ is_same one other }
{
    match (one, other) {
        (Stream::Hp, Stream::Hp) | (Stream::Lp, Stream::Lp) => true,
        _ => false,
    }
}

// How many of the places of a label carry the stream.
pub(crate) fn bits_of(shape: Shape, hierarchy: Hierarchy, stream: Stream) -> u64
    ensures is { result ≡ bits_of_label shape hierarchy stream }
    ensures few { result ≤ 6 }
{
    let mut bits = 0;
    for e in 0..shape.label_bits() {
        bits += are_same(stream_of(hierarchy, e), stream) as u64;
    }
    bits
}

// How many of them are decided otherwise than they were sent.
fn wrong_of(
    shape: Shape,
    hierarchy: Hierarchy,
    stream: Stream,
    hard: &[bool; 6],
    sent: &[bool; 6],
) -> u64
    ensures is { result ≡ wrong_among shape hierarchy stream hard.now sent.now }
    ensures few { result ≤ 6 }
{
    let mut wrong = 0;
    for e in 0..shape.label_bits() {
        let differs = hard[e as usize] != sent[e as usize];
        wrong += (are_same(stream_of(hierarchy, e), stream) & differs) as u64;
    }
    wrong
}

/// A constellation: the points of its labels, and what decides and counts their bits. It is seen as the shape and the
/// hierarchy.
#[derive(Drop)]
pub(crate) struct Constellation {
    shape: Shape,
    hierarchy: Hierarchy,
    decision: HardDecision,
    points: [Cell; 64],
    hp_bits: u64,
    lp_bits: u64,
}

impl Model for Constellation {
    ghost use Rattle.std.specs.Prelude.{◌≡◌};
    ghost use Rattle.mode_set.specs.declared.modes.Shape.{Shape};
    ghost use Rattle.mode_set.specs.declared.modes.Hierarchy.{Hierarchy};
    ghost use Rattle.measure_sums.specs.Tables.{IsConstellation};

    ghost Value = { Shape × Hierarchy };

    ghost view = { λ c. (c.shape, c.hierarchy) };

    ghost invariant = { λ c. IsConstellation c.shape c.hierarchy c.decision c.points c.hp_bits c.lp_bits };
}

// The sums of a place whose cell has the weight 0.
fn muted() -> SymbolSums
    ensures is { result ≡ muted_sums }
    ensures little { AreLittle result 1 }
{
    let none = BitSums { bits: 0, wrong: 0 };
    SymbolSums {
        cells: 0,
        muted: 1,
        power: 0,
        error: 0,
        hp: none,
        lp: none,
    }
}

impl Constellation {
    pub(crate) fn new(shape: Shape, hierarchy: Hierarchy) -> Constellation
        ensures { result ≡ (shape, hierarchy) }
    {
        Constellation {
            shape,
            hierarchy,
            decision: HardDecision::new(shape, hierarchy),
            points: points_of(shape, hierarchy),
            hp_bits: bits_of(shape, hierarchy, Stream::Hp),
            lp_bits: bits_of(shape, hierarchy, Stream::Lp),
        }
    }

    // The wrong bits of each stream: of HP and of LP. Most cells have none.
    fn wrong(&self, label: u8, received: Cell) -> (u64, u64)
        ensures hp { result.0 ≡ (counted_sums self.now.0 self.now.1 label received).hp.wrong }
        ensures lp { result.1 ≡ (counted_sums self.now.0 self.now.1 label received).lp.wrong }
        ensures hp_few { result.0 ≤ 6 }
        ensures lp_few { result.1 ≤ 6 }
    {
        let hard = hard_bits(&self.decision, received);
        let sent = sent_bits(label);
        if hard == sent {
            return (0, 0);
        }
        let hp = wrong_of(self.shape, self.hierarchy, Stream::Hp, &hard, &sent);
        let lp = wrong_of(self.shape, self.hierarchy, Stream::Lp, &hard, &sent);
        (hp, lp)
    }

    // The sums of a place whose cell counts.
    pub(crate) fn counted(&self, label: u8, received: Cell) -> SymbolSums
        requires { label < 2 ^ label_bits self.now.0 }
        ensures is { result ≡ counted_sums self.now.0 self.now.1 label received }
        ensures little { AreLittle result 1 }
    {
        let point = self.points[label as usize];
        let (hp_wrong, lp_wrong) = self.wrong(label, received);
        SymbolSums {
            cells: 1,
            muted: 0,
            power: power(point),
            error: error(received, point),
            hp: BitSums {
                bits: self.hp_bits,
                wrong: hp_wrong,
            },
            lp: BitSums {
                bits: self.lp_bits,
                wrong: lp_wrong,
            },
        }
    }

    /// What a payload place adds to the sums, by its label, the received cell and the weight of this.
    pub(crate) fn place(&self, label: u8, received: Cell, weight: u8) -> SymbolSums
        requires { label < 2 ^ label_bits self.now.0 }
        ensures is { result ≡ place_adds self.now.0 self.now.1 label received weight }
        ensures little { AreLittle result 1 }
    {
        if weight == 0 {
            muted()
        } else {
            self.counted(label, received)
        }
    }
}

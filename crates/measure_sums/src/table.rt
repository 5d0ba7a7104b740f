// Payload places by the distance of the received cell from the point of the label.
ghost use Rattle.std.specs.Prelude.{◌≡◌, ◌+◌, ◌<◌, ◌≤◌, ◌^◌, ℕ};
ghost use Rattle.mode_set.specs.StreamTable.{label_bits};
ghost use Rattle.measure_sums.specs.Quick.{IsSafe, right_sums};
ghost use Rattle.measure_sums.specs.Tables.{AreLittle, counted_sums, muted_sums, place_adds, plus};

use crate::place::{Constellation, bits_of, error};
use crate::sent::Sent;
use crate::sums::add;
use crate::tables::sent_of;
use hard_decision::HardDecision;
use measure_report::SymbolSums;
use mode_set::{Hierarchy, Shape, Stream};
use qam_map::Cell;
use std::marker::Model;

/// What is sent for each label, and how near to its point a received cell has no wrong bit. It is seen as the shape and
/// the hierarchy.
///
/// Cells farther away are left to the hard decisions.
#[derive(Drop)]
pub(crate) struct PointTable {
    constellation: Constellation,
    sent: [Sent; 64],
    hp_bits: u64,
    lp_bits: u64,
    // The square of the safe distance.
    safe: u64,
}

impl Model for PointTable {
    ghost use Rattle.std.specs.Prelude.{◌≡◌};
    ghost use Rattle.mode_set.specs.declared.modes.Shape.{Shape};
    ghost use Rattle.mode_set.specs.declared.modes.Hierarchy.{Hierarchy};
    ghost use Rattle.measure_sums.specs.Quick.{IsPointTable};

    ghost Value = { Shape × Hierarchy };

    ghost view = { λ c. c.constellation };

    ghost invariant = { λ c. IsPointTable c.constellation.0 c.constellation.1 c.sent c.hp_bits c.lp_bits c.safe };
}

// The square of the safe distance of a constellation.
fn safe_of(shape: Shape, hierarchy: Hierarchy) -> u64
    ensures { IsSafe shape hierarchy result }
{
    let distance = HardDecision::new(shape, hierarchy).safe_distance() as u64;
    distance * distance
}

// Adds a cell of the weight 0.
fn add_muted(sums: &mut SymbolSums)
    requires few { AreLittle sums.old 65536 }
    ensures is { sums.new ≡ plus sums.old muted_sums }
    ensures little { (n : ℕ) → AreLittle sums.old n → AreLittle sums.new (n + 1) }
{
    sums.muted += 1;
}

impl PointTable {
    pub(crate) fn new(shape: Shape, hierarchy: Hierarchy) -> PointTable
        ensures { result ≡ (shape, hierarchy) }
    {
        PointTable {
            constellation: Constellation::new(shape, hierarchy),
            sent: sent_of(shape, hierarchy),
            hp_bits: bits_of(shape, hierarchy, Stream::Hp),
            lp_bits: bits_of(shape, hierarchy, Stream::Lp),
            safe: safe_of(shape, hierarchy),
        }
    }

    // Adds a cell without a wrong bit, by the power of its point and by its squared distance from this.
    fn add_right(&self, power: u64, error: u64, sums: &mut SymbolSums)
        requires power { power ≤ 2 ^ 31 }
        requires error { error ≤ 2 ^ 33 }
        requires few { AreLittle sums.old 65536 }
        ensures is { sums.new ≡ plus sums.old (right_sums self.now.0 self.now.1 power error) }
        ensures little { (n : ℕ) → AreLittle sums.old n → AreLittle sums.new (n + 1) }
    {
        sums.cells += 1;
        sums.power += power;
        sums.error += error;
        sums.hp.bits += self.hp_bits;
        sums.lp.bits += self.lp_bits;
    }

    // Adds a cell by the hard decisions. It stands apart, since most cells do not need its result in memory.
    fn add_far(&self, label: u8, received: Cell, sums: &mut SymbolSums)
        requires label { label < 2 ^ label_bits self.now.0 }
        requires few { AreLittle sums.old 65536 }
        ensures is { sums.new ≡ plus sums.old (counted_sums self.now.0 self.now.1 label received) }
        ensures little { (n : ℕ) → AreLittle sums.old n → AreLittle sums.new (n + 1) }
    {
        add(sums, &self.constellation.counted(label, received));
    }

    // Adds a place whose cell counts.
    fn add_counted(&self, label: u8, received: Cell, sums: &mut SymbolSums)
        requires label { label < 2 ^ label_bits self.now.0 }
        requires few { AreLittle sums.old 65536 }
        ensures is { sums.new ≡ plus sums.old (counted_sums self.now.0 self.now.1 label received) }
        ensures little { (n : ℕ) → AreLittle sums.old n → AreLittle sums.new (n + 1) }
    {
        let sent = self.sent[label as usize];
        let error = error(received, sent.point);
        if error < self.safe {
            self.add_right(sent.power, error, sums);
        } else {
            self.add_far(label, received, sums);
        }
    }

    /// Adds a payload place, by its label, the received cell and the weight of this.
    pub(crate) fn add(&self, label: u8, received: Cell, weight: u8, sums: &mut SymbolSums)
        requires label { label < 2 ^ label_bits self.now.0 }
        requires few { AreLittle sums.old 65536 }
        ensures is { sums.new ≡ plus sums.old (place_adds self.now.0 self.now.1 label received weight) }
        ensures little { (n : ℕ) → AreLittle sums.old n → AreLittle sums.new (n + 1) }
    {
        if weight == 0 {
            add_muted(sums);
        } else {
            self.add_counted(label, received, sums);
        }
    }
}

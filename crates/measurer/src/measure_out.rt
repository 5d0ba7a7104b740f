// The lines that a call gives.
ghost use Rattle.std.specs.Prelude.{◌≡◌, ◌+◌, ◌<◌, ◌≤◌, ◌++◌, ◌∷◌, [], IfOk, IfSome, IsNone, map, length};
ghost use Rattle.arrayvec.specs.ArrayString.{ArrayString};
ghost use Rattle.measure_report.specs.Text.{lines};
ghost use Rattle.rx_report.specs.Text.{closing_lines};

use measure_report::SuperFrame;
use rx_report::{Counts, Line};
use std::alloc::{AllocError, Global};
use std::marker::Model;

/// The most lines that a call gives: those of two super-frames and the closing ones are ten.
const LINES: usize = 12;

/// The lines that the last call of a measurer made defined.
///
/// It has room for twelve lines, which one call never exceeds.
#[derive(Drop)]
pub struct MeasureOut {
    pub(crate) lines: Vec<Line>,
}

impl Model for MeasureOut {
    ghost use Rattle.std.specs.Prelude.{◌≤◌, ℕ, List, map, vec_capacity};

    ghost Value = { List (List ℕ) };

    ghost view = { λ o. map (λ l. l.bytes) o.lines.items };

    ghost invariant = { λ o. 12 ≤ vec_capacity o.lines };
}

impl MeasureOut {
    /// It has nothing yet. The only error is want of memory.
    pub fn new(alloc: Global) -> Result<MeasureOut, AllocError>
        ensures nothing { IfOk result (λ out. out ≡ []) }
    {
        Ok(MeasureOut {
            lines: Vec::with_capacity(alloc, LINES)?,
        })
    }

    /// The lines in order, each with its line feed.
    pub fn lines(&self) -> &[Line]
        ensures lines { map (λ (l : ArrayString). l.bytes) result.now ≡ self.now }
    {
        &self.lines
    }

    /// Takes out what it has.
    pub(crate) fn clear(&mut self)
        ensures nothing { self.new ≡ [] }
    {
        self.lines.clear();
    }

    /// Appends a line.
    pub(crate) fn push(&mut self, line: Line)
        requires room { length self.old < 12 }
        ensures pushed { self.new ≡ self.old ++ line.bytes ∷ [] }
    {
        self.lines.push_reserved(line);
    }
}

/// Appends a line, if there is one.
fn put_line(line: Option<Line>, out: &mut MeasureOut)
    requires room { length out.old < 12 }
    ensures some { IfSome line (λ l. out.new ≡ out.old ++ l.bytes ∷ []) }
    ensures none { IsNone line → out.new ≡ out.old }
{
    if let Some(line) = line {
        out.push(line);
    }
}

/// Appends the lines of a super-frame.
pub(crate) fn put_super_frame(sums: &SuperFrame, out: &mut MeasureOut)
    requires room { length out.old ≤ 9 }
    ensures lines { out.new ≡ out.old ++ lines sums.now }
{
    for number in 0..3 {
        put_line(sums.line(number), out);
    }
}

/// Appends the closing lines.
pub(crate) fn put_counts(counts: &Counts, out: &mut MeasureOut)
    requires room { length out.old ≤ 8 }
    ensures lines { out.new ≡ out.old ++ closing_lines counts.now }
{
    for number in 0..4 {
        put_line(counts.line(number), out);
    }
}

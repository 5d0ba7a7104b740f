// The lines of a super-frame.
ghost use Rattle.std.specs.Prelude.{◌≡◌, ◌≤◌, ◌↔◌, Some, IsNone, IfSome, length, slice_get};
ghost use Rattle.measure_report.specs.Text.{super_frame_line, stream_line, lines};

use crate::{StreamSums, SuperFrame};
use mode_set::Stream;
use rx_report::{Line, name_of, push_count};

fn super_frame_line_of(sums: &SuperFrame) -> Line
    ensures { result.bytes ≡ super_frame_line sums.now }
{
    let mut line = Line::new();
    push_count(&mut line, "superframe ", sums.number);
    push_count(&mut line, " symbols ", sums.symbols);
    push_count(&mut line, " cells ", sums.cells);
    push_count(&mut line, " muted ", sums.muted);
    push_count(&mut line, " power ", sums.power);
    push_count(&mut line, " error ", sums.error);
    push_count(&mut line, " tps read ", sums.tps_read);
    push_count(&mut line, " bad ", sums.tps_bad);
    line.push_str("\n");
    line
}

fn stream_line_of(stream: Stream, sums: &StreamSums) -> Line
    ensures { result.bytes ≡ stream_line stream sums.now }
{
    let mut line = Line::new();
    line.push_str(name_of(stream));
    push_count(&mut line, " bits ", sums.bits);
    push_count(&mut line, " wrong ", sums.wrong);
    push_count(&mut line, " words ", sums.words);
    push_count(&mut line, " clean ", sums.clean);
    push_count(&mut line, " corrected ", sums.corrected);
    push_count(&mut line, " bad ", sums.bad);
    push_count(&mut line, " unphased ", sums.unphased);
    push_count(&mut line, " unmerged ", sums.unmerged);
    push_count(&mut line, " repaired ", sums.repaired);
    line.push_str("\n");
    line
}

impl SuperFrame {
    /// The lines of the super-frame in order, numbered from 0; `None` exactly past the last. The line of LP is present
    /// if the transmission has LP.
    pub fn line(&self, number: u8) -> Option<Line>
        ensures line { IfSome result (λ l. slice_get (lines self.now) number ≡ Some l.bytes) }
        ensures past { IsNone result ↔ (length (lines self.now) ≤ number) }
    {
        match (number, &self.lp) {
            (0, _) => Some(super_frame_line_of(self)),
            (1, _) => Some(stream_line_of(Stream::Hp, &self.hp)),
            (2, Some(lp)) => Some(stream_line_of(Stream::Lp, lp)),
            _ => None,
        }
    }
}

// The closing lines of a report.
ghost use Rattle.std.specs.Prelude.{◌≡◌, ◌≤◌, ◌↔◌, Some, IsNone, IfSome, length, slice_get};
ghost use Rattle.rescue.specs.ReportText.{symbols_line, stream_line, closing_lines};

use crate::{Counts, StreamCounts};
use mode_set::Stream;
use rx_report::{Line, name_of, push_count};

fn symbols_line_of(counts: &Counts) -> Line
    ensures { result.bytes ≡ symbols_line counts.now.symbols counts.now.tail }
{
    let mut line = Line::new();
    push_count(&mut line, "symbols ", counts.symbols);
    push_count(&mut line, " tail ", counts.tail as u64);
    line.push_str("\n");
    line
}

fn stream_line_of(stream: Stream, counts: &StreamCounts) -> Line
    ensures { result.bytes ≡ stream_line stream counts.now }
{
    let words = &counts.words;
    let mut line = Line::new();
    line.push_str(name_of(stream));
    push_count(&mut line, " words ", words.words);
    push_count(&mut line, " clean ", words.clean);
    push_count(&mut line, " corrected ", words.corrected);
    push_count(&mut line, " rescued ", words.rescued);
    push_count(&mut line, " bad ", words.bad);
    push_count(&mut line, " unphased ", words.unphased);
    push_count(&mut line, " unmerged ", counts.unmerged);
    line.push_str("\n");
    line
}

impl Counts {
    /// The closing lines of the report in order, numbered from 0; `None` exactly past the last.
    pub fn line(&self, number: u8) -> Option<Line>
        ensures line { IfSome result (λ l. slice_get (closing_lines self.now) number ≡ Some l.bytes) }
        ensures past { IsNone result ↔ (length (closing_lines self.now) ≤ number) }
    {
        match (number, &self.lp) {
            (0, _) => Some(symbols_line_of(self)),
            (1, _) => Some(stream_line_of(Stream::Hp, &self.hp)),
            (2, Some(lp)) => Some(stream_line_of(Stream::Lp, lp)),
            _ => None,
        }
    }
}

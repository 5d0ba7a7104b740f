// The lines of a reception's report.
ghost use Rattle.std.specs.Prelude.{◌≡◌, ◌≤◌, ◌<◌, ◌↔◌, Some, IsNone, IfSome, length, slice_get};
ghost use Rattle.rx_report.specs.Text.{symbols_line, tps_line, stream_line, closing_lines, event_line};

use crate::{Counts, Event, Line, StreamCounts, name_of, push_count};
use mode_set::Stream;

fn symbols_line_of(counts: &Counts) -> Line
    ensures { result.bytes ≡ symbols_line counts.now }
{
    let mut line = Line::new();
    push_count(&mut line, "symbols ", counts.symbols);
    push_count(&mut line, " tail ", counts.tail as u64);
    line.push_str("\n");
    line
}

fn tps_line_of(counts: &Counts) -> Line
    ensures { result.bytes ≡ tps_line counts.now }
{
    let mut line = Line::new();
    push_count(&mut line, "tps read ", counts.tps_read);
    push_count(&mut line, " bad ", counts.tps_bad);
    line.push_str("\n");
    line
}

fn stream_line_of(stream: Stream, counts: &StreamCounts) -> Line
    ensures { result.bytes ≡ stream_line stream counts.now }
{
    let mut line = Line::new();
    line.push_str(name_of(stream));
    push_count(&mut line, " words ", counts.words);
    push_count(&mut line, " clean ", counts.clean);
    push_count(&mut line, " corrected ", counts.corrected);
    push_count(&mut line, " bad ", counts.bad);
    push_count(&mut line, " unphased ", counts.unphased);
    push_count(&mut line, " unmerged ", counts.unmerged);
    line.push_str("\n");
    line
}

impl Counts {
    /// The closing lines of the report in order, numbered from 0; `None` exactly past the last.
    pub fn line(&self, number: u8) -> Option<Line>
        ensures line { IfSome result (λ l. slice_get (closing_lines self.now) number ≡ Some l.bytes) }
        ensures past { IsNone result ↔ (length (closing_lines self.now) ≤ number) }
    {
        match (number, &self.lp) {
            (0, _) => Some(symbols_line_of(self)),
            (1, _) => Some(tps_line_of(self)),
            (2, _) => Some(stream_line_of(Stream::Hp, &self.hp)),
            (3, Some(lp)) => Some(stream_line_of(Stream::Lp, lp)),
            _ => None,
        }
    }
}

impl Event {
    /// The line of the report.
    pub fn line(&self) -> Line
        ensures { result.bytes ≡ event_line self.now }
    {
        let mut line = Line::new();
        line.push_str(name_of(self.stream));
        push_count(&mut line, " unmerged at ", self.at);
        line.push_str("\n");
        line
    }
}

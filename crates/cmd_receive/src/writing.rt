// Writing the output of the receiver after the earlier output.
ghost use Rattle.std.specs.Prelude.{◌≡◌, ◌≤◌, ◌↔◌, ℕ, List, IfSome, IsNone, IsTrue, Some, length, slice_get, take};
ghost use Rattle.std.specs.List.{concat};
ghost use Rattle.rx_report.specs.Text.{closing_lines};
ghost use Rattle.cmd_cells.specs.Stops.{HasCause};
ghost use Rattle.cmd_cells.specs.Outputs.{IsWriting};
ghost use Rattle.cmd_receive.specs.Writing.{AreOpen, Appends, IsPrinting, OnlyPrints, Pushes, ReportOnly, WritesLp};
ghost use Rattle.cmd_receive.specs.Writing.{WritesOnly, WritesOut, event_text};
ghost use Rattle.cmd_receive.specs.Closing.{few_lines};

use arrayvec::ArrayString;
use cmd_cells::{RunError, write_some};
use receiver::RxOut;
use rx_report::{Counts, Event, Line};
use station_core::{OutPort, Station};

// Space for the lines of all events of a symbol.
type EventText = ArrayString<2048>;

// Writes the packets of LP, if there are two streams.
fn write_lp<'a, S: Station<'a>>(two: bool, bytes: &[u8], station: &mut S) -> Result<(), RunError>
    requires open { AreOpen two (S.meaning station.old) }
    ensures kind { IsWriting result }
    ensures cause { HasCause (S.meaning station.old) (S.meaning station.new) result }
    ensures later_report { (S.meaning station.old).report_faults ≤ (S.meaning station.new).report_faults }
    ensures writes { WritesLp two bytes.now (S.meaning station.old) (S.meaning station.new) result }
{
    if two {
        write_some(OutPort::Lp, bytes, station)
    } else {
        Ok(())
    }
}

// Appends a line to the pending text, which is written first if there is no space for both.
fn push_line<'a, S: Station<'a>>(
    line: &Line,
    text: &mut EventText,
    station: &mut S,
) -> Result<(), RunError>
    requires printing { IsPrinting (S.meaning station.old) }
    ensures prints { OnlyPrints (S.meaning station.old) (S.meaning station.new) result }
    ensures pushes { IsTrue (S.meaning station.old).tells → Pushes line.now.bytes text.old.bytes text.new.bytes
        (S.meaning station.old).report.written (S.meaning station.new).report.written result }
{
    if line.len() <= text.remaining_capacity() {
        text.push_str(line.as_str());
        return Ok(());
    }
    write_some(OutPort::Report, text.as_str().as_bytes(), station)?;
    text.clear();
    text.push_str(line.as_str());
    Ok(())
}

// Writes the lines of the events of a symbol, in one write.
fn write_events<'a, S: Station<'a>>(events: &[Event], station: &mut S) -> Result<(), RunError>
    requires printing { IsPrinting (S.meaning station.old) }
    ensures prints { OnlyPrints (S.meaning station.old) (S.meaning station.new) result }
    ensures written { IsTrue (S.meaning station.old).tells → Appends (event_text events.now)
        (S.meaning station.old).report.written (S.meaning station.new).report.written result }
{
    if events.is_empty() {
        return Ok(());
    }
    let mut text = EventText::new();
    for event in events {
        push_line(&event.line(), &mut text, station)?;
    }
    write_some(OutPort::Report, text.as_str().as_bytes(), station)
}

/// Writes the output of a receiver: the packets of HP, those of LP if there are two streams, and the lines of its
/// events, with at most one write for each port.
pub fn write_out<'a, S: Station<'a>>(
    two: bool,
    out: &RxOut,
    station: &mut S,
) -> Result<(), RunError>
    requires open { AreOpen two (S.meaning station.old) }
    ensures kind { IsWriting result }
    ensures cause { HasCause (S.meaning station.old) (S.meaning station.new) result }
    ensures later_report { (S.meaning station.old).report_faults ≤ (S.meaning station.new).report_faults }
    ensures others { WritesOnly (S.meaning station.old) (S.meaning station.new) }
    ensures written { IsTrue (S.meaning station.old).tells → WritesOut two out.now (S.meaning station.old) (S.meaning
        station.new) result }
{
    write_some(OutPort::Hp, out.hp(), station)?;
    write_lp(two, out.lp(), station)?;
    write_events(out.events(), station)
}

/// The counts for the closing lines of a report: at most four lines.
pub trait ClosingLines {
    ghost lines: { Self → List (List ℕ) };

    ghost few: { (c : Self) → take 4 (lines c) ≡ lines c };

    /// The closing lines in order, numbered from 0; `None` exactly past the last.
    fn line(&self, number: u8) -> Option<Line>
        ensures line { IfSome result (λ l. slice_get (lines self.now) number ≡ Some l.bytes) }
        ensures past { IsNone result ↔ (length (lines self.now) ≤ number) };
}

impl ClosingLines for Counts {
    ghost lines = { λ c. closing_lines c };

    ghost few = { few_lines };

    fn line(&self, number: u8) -> Option<Line> {
        Counts::line(self, number)
    }
}

/// Writes the closing lines to Report, one write for each.
pub fn write_lines<'a, C: ClosingLines, S: Station<'a>>(
    counts: &C,
    station: &mut S,
) -> Result<(), RunError>
    requires printing { IsPrinting (S.meaning station.old) }
    ensures kind { IsWriting result }
    ensures cause { HasCause (S.meaning station.old) (S.meaning station.new) result }
    ensures later_report { (S.meaning station.old).report_faults ≤ (S.meaning station.new).report_faults }
    ensures others { ReportOnly (S.meaning station.old) (S.meaning station.new) }
    ensures written { IsTrue (S.meaning station.old).tells → Appends (concat (C.lines counts.now))
        (S.meaning station.old).report.written (S.meaning station.new).report.written result }
{
    for number in 0..4u8 {
        match counts.line(number) {
            Some(line) => write_some(OutPort::Report, line.as_str().as_bytes(), station)?,
            None => return Ok(()),
        }
    }
    Ok(())
}

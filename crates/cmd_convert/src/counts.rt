// The closing line of a conversion.
ghost use Rattle.std.specs.Prelude.{◌≡◌};
ghost use Rattle.cmd_convert.specs.Conversion.{counts_line};

use rx_report::{Line, push_count};

/// The closing line of a file that was converted: its whole symbols, and the bytes after them.
pub fn line_of_counts(symbols: u64, tail: u64) -> Line
    ensures { result.bytes ≡ counts_line symbols tail }
{
    let mut line = Line::new();
    push_count(&mut line, "symbols ", symbols);
    push_count(&mut line, " tail ", tail);
    line.push_str("\n");
    line
}

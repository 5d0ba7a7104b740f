// A line of a report.
ghost use Rattle.std.specs.Prelude.{◌≡◌, ◌≤◌, ◌+◌, ◌++◌, decimal, length};
ghost use Rattle.arrayvec.specs.ArrayString.{array_string_len};
ghost use Rattle.rx_report.specs.Streams.{stream_text};

use arrayvec::ArrayString;
use itoa::Buffer;
use mode_set::Stream;

/// A line of the report with its line feed, at most 256 bytes.
pub type Line = ArrayString<256>;

/// Appends a text and the decimal digits of a number. There must be room for the text and 20 digits.
pub fn push_count(line: &mut Line, text: &str, number: u64)
    requires { array_string_len line.old + length text.now ≤ 236 }
    ensures bytes { line.new.bytes ≡ line.old.bytes ++ text.now ++ decimal number }
    ensures len { array_string_len line.new ≤ array_string_len line.old + length text.now + 20 }
{
    let mut buffer = Buffer::new();
    line.push_str(text);
    line.push_str(buffer.format(number));
}

/// The name of a stream, as a report prints it: `hp` or `lp`.
pub fn name_of(stream: Stream) -> &'static str
    ensures name { result.now ≡ stream_text stream }
    ensures short { length result.now ≤ 2 }
{
    match stream {
        Stream::Hp => "hp",
        Stream::Lp => "lp",
    }
}

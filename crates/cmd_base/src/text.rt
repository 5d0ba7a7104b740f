// The lines of the report.
ghost use Rattle.std.specs.Prelude.{◌≡◌, ◌≤◌, ◌<◌, ◌+◌, ◌++◌, length};
ghost use Rattle.mode_set.specs.Keys.{key_text};
ghost use Rattle.arrayvec.specs.ArrayString.{array_string_len};
ghost use Rattle.cmd_base.specs.Text.{refusal_text, settings_text};
ghost use Rattle.cmd_base.specs.Packets.{closing_line, packets_line};

use crate::{CellsRefusal, Counts, Refusal, SettingsRefusal};
use mode_set::{Key, Stream};
use rx_report::{Line, name_of, push_count};

// Appends the text before a key, and the key.
fn push_key(line: &mut Line, before: &str, key: Key)
    requires room { array_string_len line.old ≤ 100 }
    requires short { length before.now ≤ 20 }
    ensures bytes { line.new.bytes ≡ line.old.bytes ++ (before.now ++ key_text key) }
    ensures len { array_string_len line.new ≤ array_string_len line.old + 40 }
{
    line.push_str(before);
    line.push_str(key.text());
}

// Appends the reason for rejecting settings.
fn push_settings(line: &mut Line, reason: &SettingsRefusal)
    requires { array_string_len line.old ≤ 100 }
    ensures bytes { line.new.bytes ≡ line.old.bytes ++ settings_text reason.now }
    ensures len { array_string_len line.new ≤ array_string_len line.old + 60 }
{
    match reason {
        SettingsRefusal::TooLong => line.push_str("too long"),
        SettingsRefusal::NotToml => line.push_str("not toml"),
        SettingsRefusal::Unknown(place) => push_count(line, "unknown ", u64::from(*place)),
        SettingsRefusal::Missing(key) => push_key(line, "missing ", *key),
        SettingsRefusal::Value(key) => push_key(line, "value ", *key),
        SettingsRefusal::Clash(key) => push_key(line, "clash ", *key),
        SettingsRefusal::Form => line.push_str("form"),
    }
}

/// The text of a refusal, one line.
pub fn text_of(refusal: &Refusal) -> Line
    ensures text { result.bytes ≡ refusal_text refusal.now }
    ensures some { 0 < length result.bytes }
{
    let mut line = Line::new();
    match refusal {
        Refusal::Usage => line.push_str("usage"),
        Refusal::Settings(reason) => {
            line.push_str("settings ");
            push_settings(&mut line, reason);
        }
        Refusal::ReadFault => line.push_str("read fault"),
        Refusal::WriteFault => line.push_str("write fault"),
        Refusal::Memory => line.push_str("memory"),
        Refusal::NotSync(stream, number) => {
            line.push_str(name_of(*stream));
            push_count(&mut line, " packet ", *number);
        }
        Refusal::Limit(number) => push_count(&mut line, "limit ", *number),
        Refusal::Cells(CellsRefusal::Header) => line.push_str("cells header"),
        Refusal::Cells(CellsRefusal::NoPlace) => line.push_str("tune none"),
        Refusal::Cells(CellsRefusal::AnnouncedForm) => line.push_str("tune form"),
    }
    line.push_str("\n");
    line
}

/// The closing line of a transport input taken to its end.
pub fn closing_line_of(counts: &Counts) -> Line
    ensures text { result.bytes ≡ closing_line counts.now }
    ensures some { 0 < length result.bytes }
{
    packets_line_of(Stream::Hp, counts)
}

/// The closing line of the input of a stream taken to its end.
pub fn packets_line_of(stream: Stream, counts: &Counts) -> Line
    ensures text { result.bytes ≡ packets_line stream counts.now }
    ensures some { 0 < length result.bytes }
{
    let mut line = Line::new();
    line.push_str(name_of(stream));
    push_count(&mut line, " packets ", counts.packets);
    push_count(&mut line, " tail ", counts.tail);
    line.push_str("\n");
    line
}

// The lines of a place.
ghost use Rattle.std.specs.Prelude.{◌≡◌, ◌≤◌, ◌+◌, ◌++◌, length};
ghost use Rattle.arrayvec.specs.ArrayString.{array_string_len};
ghost use Rattle.cmd_align.specs.Announcement.{announced_line as line_of_word, guard_word as guard_of};
ghost use Rattle.cmd_align.specs.Announcement.{hierarchy_word as hierarchy_of, low_rate, rate_word as rate_of};
ghost use Rattle.cmd_align.specs.Announcement.{shape_word as shape_of};

use mode_set::{Guard, Hierarchy, Rate, Shape};
use rx_report::Line;
use tps_word::TpsWord;

// The words of the settings file.

fn shape_word(shape: Shape) -> &'static str
    ensures word { result.now ≡ shape_of shape }
    ensures short { length result.now ≤ 5 }
{
    match shape {
        Shape::Qpsk => "qpsk",
        Shape::Qam16 => "16qam",
        Shape::Qam64 => "64qam",
    }
}

fn hierarchy_word(hierarchy: Hierarchy) -> &'static str
    ensures word { result.now ≡ hierarchy_of hierarchy }
    ensures short { length result.now ≤ 5 }
{
    match hierarchy {
        Hierarchy::Flat => "none",
        Hierarchy::Alpha1 => "1",
        Hierarchy::Alpha2 => "2",
        Hierarchy::Alpha4 => "4",
    }
}

fn rate_word(rate: Rate) -> &'static str
    ensures word { result.now ≡ rate_of rate }
    ensures short { length result.now ≤ 5 }
{
    match rate {
        Rate::R1of2 => "1/2",
        Rate::R2of3 => "2/3",
        Rate::R3of4 => "3/4",
        Rate::R5of6 => "5/6",
        Rate::R7of8 => "7/8",
    }
}

fn guard_word(guard: Guard) -> &'static str
    ensures word { result.now ≡ guard_of guard }
    ensures short { length result.now ≤ 5 }
{
    match guard {
        Guard::G1of32 => "1/32",
        Guard::G1of16 => "1/16",
        Guard::G1of8 => "1/8",
        Guard::G1of4 => "1/4",
    }
}

// Appends a name and a word. There must be room for the name and five bytes.
fn push_word(line: &mut Line, name: &str, word: &str)
    requires room { array_string_len line.old + length name.now ≤ 250 }
    requires short { length word.now ≤ 5 }
    ensures bytes { line.new.bytes ≡ line.old.bytes ++ name.now ++ word.now }
    ensures len { array_string_len line.new ≤ array_string_len line.old + length name.now + 5 }
{
    line.push_str(name);
    line.push_str(word);
}

// Appends the rate of LP, if the word has a hierarchy.
fn push_low_rate(line: &mut Line, word: &TpsWord)
    requires room { array_string_len line.old ≤ 230 }
    ensures bytes { line.new.bytes ≡ line.old.bytes ++ low_rate word.now }
    ensures len { array_string_len line.new ≤ array_string_len line.old + 14 }
{
    if !word.hierarchy.is_flat() {
        push_word(line, " rate_lp ", rate_word(word.rate_lp));
    }
}

/// The line of the announced parameters, in the words of the settings file, such as `announced constellation qpsk
/// hierarchy none rate_hp 1/2 guard 1/32`.
pub(crate) fn announced_line(word: &TpsWord) -> Line
    ensures { result.bytes ≡ line_of_word word.now }
{
    let mut line = Line::new();
    push_word(
        &mut line,
        "announced constellation ",
        shape_word(word.shape),
    );
    push_word(&mut line, " hierarchy ", hierarchy_word(word.hierarchy));
    push_word(&mut line, " rate_hp ", rate_word(word.rate_hp));
    push_low_rate(&mut line, word);
    push_word(&mut line, " guard ", guard_word(word.guard));
    line.push_str("\n");
    line
}

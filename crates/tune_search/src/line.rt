// The line of a place.
ghost use Rattle.std.specs.Prelude.{◌≡◌};
ghost use Rattle.tune_search.specs.Searching.{place_line as line_of_place};

use rx_report::{Line, push_count};
use tune_in::Found;

/// The line of a place: the number of its first symbol and that of the frame, as `tune at 58 frame 2`.
pub fn place_line(found: &Found) -> Line
    ensures { result.bytes ≡ line_of_place found.now }
{
    let mut line = Line::new();
    push_count(&mut line, "tune at ", found.place);
    push_count(&mut line, " frame ", u64::from(found.word.frame));
    line.push_str("\n");
    line
}

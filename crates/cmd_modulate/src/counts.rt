// The counts of a modulation, and the closing line for its super-frames.
ghost use Rattle.std.specs.Prelude.{◌≡◌, ◌<◌, length};
ghost use Rattle.cmd_modulate.specs.ModulateCommand.{super_frames_line};

use cmd_base::Counts;
use rx_report::{Line, push_count};

/// The counts of a modulation.
#[derive(Clone, Copy, Debug, PartialEq, Eq)]
pub struct TransmissionCounts {
    /// The input of the high priority stream.
    pub hp: Counts,
    /// The input of the low priority stream; zero without a hierarchy.
    pub lp: Counts,
    /// The super-frames sent.
    pub super_frames: u64,
}

// The closing line for the super-frames sent.
pub(crate) fn super_frames_line_of(super_frames: u64) -> Line
    ensures text { result.bytes ≡ super_frames_line super_frames }
    ensures some { 0 < length result.bytes }
{
    let mut line = Line::new();
    push_count(&mut line, "superframes ", super_frames);
    line.push_str("\n");
    line
}

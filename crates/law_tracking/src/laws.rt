// The flat gain law of channel tracking, as contracts of functions with empty bodies.
ghost use Rattle.law_tracking.specs.Tracked.{BeginningsAreTracked, FilesAreTracked, IsWellTolerated, TrackedAreClean};
ghost use Rattle.law_tracking.specs.Tracked.{TrackedAreReturned, TrackedAreWithin};

use frame_build::cells_are_read_back;
use law_link::laws::noise;
use symbol_parameters::laws::settings;
use transmission::laws::super_frames;

/// A file whose cells were all multiplied by one gain of half to full nominal amplitude, and rounded to within 1 on
/// each axis, is restored by the scattered pilots of neighbouring symbols: each of its cells is within 256 of the cell
/// sent on both axes and has a weight of at least 1. It has at least four symbols, and may end before the transmission.
/// A receiver of a whole transmission that starts at zero returns its packets, then null packets, with all words clean.
pub fn flat_gain_is_tracked()
    ensures beginnings { BeginningsAreTracked }
    ensures files { FilesAreTracked }
    ensures tolerated { IsWellTolerated }
    ensures within { TrackedAreWithin }
    ensures returned { TrackedAreReturned }
    ensures clean { TrackedAreClean }
{
    cells_are_read_back();
    noise();
    settings();
    super_frames();
}

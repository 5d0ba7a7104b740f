// The flat gain law, as contracts of functions with empty bodies.
ghost use Rattle.law_link.specs.FlatFiles.{FilesAreRestored, FilesAreWithin, FilesAreReturned, FilesAreClean};
ghost use Rattle.law_link.specs.Flat.{FlatGainIsRemoved, StrongGainIsRemoved};
ghost use Rattle.law_link.specs.Symbols.{SymbolsComeBack, TransmissionsComeBack, IsTolerated};

use crate::laws::noise;
use cell_equal::laws::corrected_are_cells;
use frame_build::cells_are_read_back;
use pilots::pilots_are_around;
use symbol_parameters::laws::settings;

/// A symbol whose cells were all multiplied by one gain of half to full nominal amplitude, and rounded to within 1 on
/// each axis, is restored: each part of each corrected cell is within 64 of the part sent, and its weight is at least
/// 1. It is even within 17, for any gain, however strong.
pub fn flat_gain_is_removed()
    ensures flat { FlatGainIsRemoved }
    ensures strong { StrongGainIsRemoved }
{
    pilots_are_around();
}

/// So are the symbols of a transmission, one by one and all of them, closely enough for every constellation.
pub fn transmissions_come_back()
    ensures symbols { SymbolsComeBack }
    ensures transmissions { TransmissionsComeBack }
    ensures tolerated { IsTolerated }
{
    flat_gain_is_removed();
    settings();
}

/// So is a whole file of cells, corrected symbol by symbol: each of its cells is within 64 of the cell sent on both
/// axes and has a weight of at least 1. A receiver that starts at zero returns its packets, then null packets, with all
/// words clean.
pub fn files_come_back()
    ensures restored { FilesAreRestored }
    ensures within { FilesAreWithin }
    ensures returned { FilesAreReturned }
    ensures clean { FilesAreClean }
{
    cells_are_read_back();
    corrected_are_cells();
    transmissions_come_back();
    noise();
}

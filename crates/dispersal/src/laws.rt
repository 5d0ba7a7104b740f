// The law of energy dispersal, as the contract of a function with an empty body.
ghost use Rattle.dispersal.specs.Laws.{UndoGivesBack};

/// Undoing the dispersal of a packet at its phase restores the packet.
pub fn undo_gives_back()
    ensures { UndoGivesBack }
{}

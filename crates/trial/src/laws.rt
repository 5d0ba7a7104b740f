// The laws of a trial, as contracts of functions with empty bodies.
ghost use Rattle.trial.specs.Laws.{AllAreDrawn, FramesOfDrawn, SymbolsOfDrawn, OneSuperFrame, DrawnInOrder};
ghost use Rattle.trial.specs.Laws.{NullsBehind, CellsAreSmall, CellsAreRead, FedSymbolsAreLong, PacketsAreCounted};

/// The random packets, if their counts have a number of super-frames: as many as the counts, in the order of the
/// symbols that need them, then null packets. Without a plan one super-frame carries them.
pub fn packets()
    ensures all { AllAreDrawn }
    ensures frames { FramesOfDrawn }
    ensures symbols { SymbolsOfDrawn }
    ensures one { OneSuperFrame }
    ensures order { DrawnInOrder }
    ensures nulls { NullsBehind }
{
    symbol_parameters::laws::settings();
    symbol_parameters::laws::words();
    transmission::laws::packets();
    transmission::laws::super_frames();
}

/// The cells of a symbol have room for a shift, and are read from its bytes.
pub fn cells()
    ensures small { CellsAreSmall }
    ensures read { CellsAreRead }
    ensures long { FedSymbolsAreLong }
{
    transmission::laws::symbols();
}

/// One packet is received for each word that has a phase.
pub fn packets_back()
    ensures { PacketsAreCounted }
{
    outer_chain::laws::growth();
}

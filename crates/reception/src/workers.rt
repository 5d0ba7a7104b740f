// The laws of the number of workers, as contracts of functions with empty bodies.
ghost use Rattle.reception.specs.Alike.{SameCosts, SameEvents, SameFinal, SameLines, SameLive, SameStreams};

/// Settings that differ only in the number of workers give the same reception and the same lines of the report.
pub fn workers()
    ensures live { SameLive }
    ensures last { SameFinal }
    ensures lines { SameLines }
{}

/// Such settings give the same streams, the same costs of each, and the same events of their reports.
pub fn costs()
    ensures streams { SameStreams }
    ensures costs { SameCosts }
    ensures events { SameEvents }
{}

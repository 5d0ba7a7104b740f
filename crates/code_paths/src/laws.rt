// Laws of the definitions, for the crates above.
ghost use Rattle.code_paths.specs.Laws.{PathsExtend, GivenGrows, ReportsGrow, SharedBeginsLeast, GivenOnce, EndedOnce};
ghost use Rattle.code_paths.specs.Laws.{ReportsOnce, GivenBeginsEnded};
ghost use Rattle.code_paths.specs.Favoured.{KeepsSent, PairsSpeak};
ghost use Rattle.std.specs.Prelude.{ℕ};

/// The order of paths extends through a step: the least path to a register comes by the better of its two ways, the
/// even one if they cost the same.
pub fn paths_extend()
    ensures law { PathsExtend }
{}

/// The bits given for a stream are a prefix of those for every longer one.
pub fn given_grows()
    ensures law { GivenGrows }
{}

/// The reports of a stream are a prefix of those of every longer one.
pub fn reports_grow()
    ensures law { ReportsGrow }
{}

/// The prefix shared by the least paths to all ends is a prefix of the least path, also for every longer list of costs.
pub fn shared_begins_least()
    ensures law { SharedBeginsLeast }
{}

/// The bits given are unique.
pub fn given_once()
    ensures law { GivenOnce }
{}

/// The bits at the end are unique.
pub fn ended_once()
    ensures law { EndedOnce }
{}

/// The reports are unique.
pub fn reports_once()
    ensures law { ReportsOnce }
{}

/// The bits given are a prefix of the bits at the end.
pub fn given_begins_ended()
    ensures law { GivenBeginsEnded }
{}

/// Costs that favour one path give that path's bits, for any path memory.
pub fn keeps_sent()
    ensures law { (most : ℕ) → KeepsSent most }
{}

/// Pairs made from the costs of sent bits, whose right value always costs less, favour the path.
pub fn pairs_speak()
    ensures law { PairsSpeak }
{}

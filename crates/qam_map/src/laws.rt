// Laws of the definitions, each the contract of a function with an empty body.
ghost use Rattle.qam_map.specs.Points.{LevelsAreNearest};

/// Each level is the integer nearest to 16384 times the standard's normalised value.
pub fn levels_are_nearest()
    ensures { LevelsAreNearest }
{}

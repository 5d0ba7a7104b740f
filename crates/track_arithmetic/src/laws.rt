// Laws of the definitions, each as what an empty function ensures.
ghost use Rattle.track_arithmetic.specs.Laws.{QuotientsAreRoundedDown, RootIsGreatest};

/// The quotients are rounded down, those of negative numbers too.
pub fn quotients_are_rounded_down()
    ensures { QuotientsAreRoundedDown }
{}

/// The root is the greatest number whose square is not above the given one.
pub fn root_is_greatest()
    ensures { RootIsGreatest }
{}

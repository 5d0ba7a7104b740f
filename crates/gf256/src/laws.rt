// The laws of the field, as contracts of functions with empty bodies.

ghost use Rattle.gf256.specs.Laws.{SumIsElement, SumCommutes, SumAssociates, ZeroAddsNothing, SumWithItself};
ghost use Rattle.gf256.specs.Laws.{ProductIsElement, ProductCommutes, ProductAssociates, OneChangesNothing};
ghost use Rattle.gf256.specs.Laws.{ZeroTakesAll, NoZeroDivisors, ProductDistributes};
ghost use Rattle.gf256.specs.Laws.{EachIsPower, PowersDiffer, PowersAdd, PowersRepeat};

/// Elements form a group under addition, and each is its own inverse.
pub fn sums()
    ensures element { SumIsElement }
    ensures commutes { SumCommutes }
    ensures associates { SumAssociates }
    ensures zero { ZeroAddsNothing }
    ensures opposite { SumWithItself }
{}

/// Products commute and associate, 1 is neutral, and a product is 0 only if a factor is.
pub fn products()
    ensures element { ProductIsElement }
    ensures commutes { ProductCommutes }
    ensures associates { ProductAssociates }
    ensures one { OneChangesNothing }
    ensures zero { ZeroTakesAll }
    ensures no_zero_divisors { NoZeroDivisors }
{}

/// Products distribute over sums.
pub fn distribution()
    ensures { ProductDistributes }
{}

/// The 255 powers of λ are the nonzero elements, each exactly once.
pub fn powers()
    ensures each { EachIsPower }
    ensures differ { PowersDiffer }
    ensures add { PowersAdd }
    ensures repeat { PowersRepeat }
{}

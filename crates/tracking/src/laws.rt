// Laws of the definitions, each the contract of a function with an empty body.
ghost use Rattle.tracking.specs.Laws.{GreaterPowersWeighMore, LiveSymbolsStay};

/// A greater power of the gain never gives a carrier a lower weight, whatever the symbol is compared with.
pub fn greater_powers_weigh_more()
    ensures { GreaterPowersWeighMore }
{}

/// A corrected symbol depends on no symbol beyond the next seven: more symbols do not change it.
pub fn live_symbols_stay()
    ensures { LiveSymbolsStay }
{}

// Laws of the definitions, each the contract of a function that does nothing.
ghost use Rattle.inner_chain.specs.PairLists.{PairsAreListed};

/// What `InnerRx::pairs` appends is the list of the cost pairs of the symbol's steps in order.
pub fn pairs_are_listed()
    ensures { PairsAreListed }
{}

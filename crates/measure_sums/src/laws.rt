// A law of the definitions, the contract of a function that does nothing.
ghost use Rattle.measure_sums.specs.Comparing.{AlikeAreSummedAlike};

/// Sums depend on the bits of the labels alone.
pub fn alike_are_summed_alike()
    ensures { AlikeAreSummedAlike }
{}

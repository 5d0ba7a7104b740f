// Laws of the definitions, each the contract of a function that does nothing.
ghost use Rattle.symbol_interleave.specs.Carried.{HIsAPermutation, PlacesAndWordsAgree};

/// H is a permutation of the payload places, in both modes.
pub fn h_is_a_permutation()
    ensures { HIsAPermutation }
{}

/// In each symbol every word stands at one place, and every place carries one word.
pub fn places_and_words_agree()
    ensures { PlacesAndWordsAgree }
{}

// The law of the search, as the contract of a function with an empty body.
ghost use Rattle.tune_search.specs.Searching.{FindsLeastPlaces};

use tune_in::one_found;

/// The least place within the limit of the settings, as a function of the bytes, is the least place by its
/// definition; and it is none exactly if there is no place.
pub fn least_place()
    ensures { FindsLeastPlaces }
{
    one_found();
}

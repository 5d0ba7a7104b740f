// The laws of measurement, as contracts of functions with empty bodies.
ghost use Rattle.measurement.specs.Laws.{SumsStay, OneSums, LiveBeginsLive, LiveBeginsFinal};

use code_paths::uniqueness::existence;
use code_paths::{ended_once, given_once, reports_grow, reports_once};
use symbol_parameters::laws::steps;

/// More bytes leave the sums of a super-frame once its lines are defined.
pub fn sums_stay()
    ensures law { SumsStay }
{
    steps();
    reports_grow();
    existence();
    reception::laws::symbols();
    reception::laws::costs();
    reception::laws::events();
}

/// The sums of a super-frame are unique.
pub fn one_sums()
    ensures law { OneSums }
{
    given_once();
    ended_once();
    reports_once();
    outer_chain::laws::growth();
}

/// The lines for bytes are a prefix of those for more bytes, so far and at the end.
pub fn beginnings()
    ensures live { LiveBeginsLive }
    ensures last { LiveBeginsFinal }
{
    sums_stay();
    one_sums();
}

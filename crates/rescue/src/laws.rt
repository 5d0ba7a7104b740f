// The laws, as contracts of functions with empty bodies.
ghost use Rattle.rescue.specs.Laws.{OneSoFar, OneAtEnd, AtEndEndsSoFar, NothingSoFar, SomeSoFar, SomeAtEnd};
ghost use Rattle.rescue.specs.Laws.{SoFarBeginsSoFar, SoFarBeginsAtEnd, WholeSymbolsGive, SameSoFar, SameAtEnd};
ghost use Rattle.rescue.specs.Laws.{SameLines};

use code_paths::{
    ended_once, given_begins_ended, given_grows, given_once, reports_grow, reports_once,
};

/// Bytes have one rescue output so far and one at the end, which begins with the first and has the same reports.
pub fn receptions()
    ensures so_far { OneSoFar }
    ensures at_end { OneAtEnd }
    ensures ends { AtEndEndsSoFar }
{
    given_once();
    ended_once();
    reports_once();
    given_begins_ended();
    outer_chain::laws::bits();
    bit_margin::laws::margins_once();
    bit_margin::laws::margins_stay();
    rescue_words::laws::byte_margins();
    rescue_words::laws::rescued();
}

/// No bytes give no output.
pub fn nothing()
    ensures so_far { NothingSoFar }
{
    reception::laws::nothing();
    reception::laws::costs();
}

/// Bytes always have a rescue output so far, and one at the end.
pub fn existence()
    ensures so_far { SomeSoFar }
    ensures at_end { SomeAtEnd }
{
    code_paths::uniqueness::existence();
    rs204::laws::codewords();
    bit_margin::laws::some_least();
}

/// The rescue output of a prefix is a prefix of both outputs of more bytes, and bytes within a symbol do not change it.
pub fn beginnings()
    ensures so_far { SoFarBeginsSoFar }
    ensures at_end { SoFarBeginsAtEnd }
    ensures whole { WholeSymbolsGive }
{
    given_grows();
    given_begins_ended();
    reports_grow();
    code_paths::uniqueness::existence();
    outer_chain::laws::bits();
    bit_margin::laws::margins_stay();
    rescue_words::laws::byte_margins();
    rescue_words::laws::rescued();
    symbol_parameters::laws::steps();
    reception::laws::costs();
    reception::laws::events();
}

/// Settings that differ only in the number of workers give the same rescue output and the same lines of the report.
pub fn workers()
    ensures so_far { SameSoFar }
    ensures at_end { SameAtEnd }
    ensures lines { SameLines }
{
    reception::workers::costs();
}

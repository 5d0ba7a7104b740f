// The laws, as contracts of functions with empty bodies.
ghost use Rattle.reception.specs.Moments.{SomeLive, SomeFinal, LiveBeginsLive, LiveBeginsFinal, WholeSymbolsGive};

/// Bytes always have a live and a final output.
pub fn existence()
    ensures live { SomeLive }
    ensures last { SomeFinal }
{
    code_paths::uniqueness::existence();
    rs204::laws::codewords();
}

/// The live output of a prefix is a prefix of both outputs of more bytes, and bytes within a symbol do not change it.
pub fn beginnings()
    ensures live { LiveBeginsLive }
    ensures last { LiveBeginsFinal }
    ensures whole { WholeSymbolsGive }
{
    existence();
    symbol_parameters::laws::steps();
    crate::laws::symbols();
    crate::laws::costs();
    crate::laws::events();
    crate::laws::receptions();
}

// The laws of the number of workers in a trial, as contracts of functions with empty bodies.
ghost use Rattle.trial.specs.TrialsAlike.{SameFed, SameFrames, SameGiven, SameCounts};

/// With settings that differ only in the number of workers a trial feeds the same cells in as many super-frames,
/// receives the same, and counts the same.
pub fn workers()
    ensures fed { SameFed }
    ensures frames { SameFrames }
    ensures given { SameGiven }
    ensures counts { SameCounts }
{
    reception::workers::workers();
}

// The laws of puncturing, as contracts of functions that do nothing.
ghost use Rattle.puncture.specs.Laws.{StepsSendInOrder, StepsAreNumbered, PeriodsShift, SentBitsHaveSteps};
ghost use Rattle.puncture.specs.Laws.{SentBitsAreRuns, ListsArePaths, BytesArePaths};

/// Step after step, the bits sent of a path are its sent bits in order.
pub fn steps_send_in_order()
    ensures { StepsSendInOrder }
{}

/// The bits of a step have the numbers that follow those of the steps before it, X before Y, and each step has one at
/// least.
pub fn steps_are_numbered()
    ensures { StepsAreNumbered }
{}

/// Whole periods before a step shift the numbers of its bits by the bits of those periods.
pub fn periods_shift()
    ensures { PeriodsShift }
{}

/// Each sent bit is a coded bit of one step, and has its number there.
pub fn sent_bits_have_steps()
    ensures { SentBitsHaveSteps }
{}

/// Runs of sent bits are lists that join.
pub fn sent_bits_are_runs()
    ensures { SentBitsAreRuns }
{}

/// The coded bits of a list of bits are those of the path that it begins.
pub fn lists_are_paths()
    ensures { ListsArePaths }
{}

/// The bytes of a stream stand on its path after six zeros.
pub fn bytes_are_paths()
    ensures { BytesArePaths }
{}

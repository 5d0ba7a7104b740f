// Why the work on cells stops before its end.
ghost use Rattle.std.specs.Prelude.{◌≡◌};
ghost use Rattle.cmd_cells.specs.Stops.{stop_refusal};

use cmd_base::Refusal;

/// Why the work on cells has stopped before its end.
#[derive(Clone, Copy, Debug, PartialEq, Eq)]
pub enum RunError {
    /// The cells could not be opened or read.
    ReadFault,
    /// An output could not be created, written or closed, or a write to the report failed.
    WriteFault,
    /// The cells have one whole symbol more than the limit.
    Limit,
    /// The work itself refuses the cells, for this reason.
    Work(Refusal),
}

impl RunError {
    /// The refusal of a run that stopped like this, for this limit of symbols.
    pub fn refusal(self, max_symbols: u32) -> Refusal
        ensures { result ≡ stop_refusal max_symbols self }
    {
        match self {
            RunError::ReadFault => Refusal::ReadFault,
            RunError::WriteFault => Refusal::WriteFault,
            RunError::Limit => Refusal::Limit(u64::from(max_symbols)),
            RunError::Work(refusal) => refusal,
        }
    }
}

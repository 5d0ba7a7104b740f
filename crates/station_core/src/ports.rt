// The ports of a station.

/// The input ports of a command.
#[derive(Clone, Copy, Debug, PartialEq, Eq)]
pub enum InPort {
    /// The settings file.
    Settings,
    /// The transport stream of high priority, or the only one.
    Hp,
    /// The transport stream of low priority.
    Lp,
    /// A file of cells.
    Cells,
}

/// The output ports of a command.
#[derive(Clone, Copy, Debug, PartialEq, Eq)]
pub enum OutPort {
    /// A file of cells.
    Cells,
    /// The transport stream of high priority, or the only one.
    Hp,
    /// The transport stream of low priority.
    Lp,
    /// The output of the coding commands.
    Bytes,
    /// The lines that report on the run to the user.
    Report,
}

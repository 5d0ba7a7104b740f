// The kind of a carrier.

/// The kind of a carrier of an OFDM symbol (EN 300 744, 4.4).
#[derive(Clone, Copy, Debug, PartialEq, Eq)]
pub enum CarrierKind {
    /// A pilot in every symbol (4.5.4).
    Continual,
    /// A pilot in every fourth symbol (4.5.3).
    Scattered,
    /// It signals the transmission parameters (4.6).
    Tps,
    /// It carries data. Its index among the symbol's payload carriers.
    Payload(u32),
}

// The keys of a settings document.
ghost use Rattle.std.specs.Prelude.{◌≡◌};
ghost use Rattle.mode_set.specs.Keys.{key_text, is_key};

/// A key of a settings document, in the order in which the keys are checked.
#[derive(Clone, Copy, Debug, PartialEq, Eq)]
pub enum Key {
    /// The transmission mode.
    Mode,
    /// The constellation of the data cells.
    Constellation,
    /// The hierarchy, with its α.
    Hierarchy,
    /// The rate of the inner code of HP.
    RateHp,
    /// The rate of the inner code of LP.
    RateLp,
    /// The guard interval.
    Guard,
    /// The identifier of the cell.
    CellId,
    /// The initial register of the inner code that the receiver assumes.
    Start,
    /// The workers of the receiver.
    Workers,
    /// The limit of symbols.
    MaxSymbols,
    /// The entries with later changes of parameters.
    Plan,
}

impl Key {
    /// The key as written in a document and as printed by the program.
    pub fn text(self) -> &'static str
        ensures { result.now ≡ key_text self }
    {
        match self {
            Key::Mode => "mode",
            Key::Constellation => "constellation",
            Key::Hierarchy => "hierarchy",
            Key::RateHp => "rate_hp",
            Key::RateLp => "rate_lp",
            Key::Guard => "guard",
            Key::CellId => "cell_id",
            Key::Start => "start",
            Key::Workers => "workers",
            Key::MaxSymbols => "max_symbols",
            Key::Plan => "plan",
        }
    }
}

// Whether the text is one of the eleven keys.
pub(crate) fn is_known(text: &str) -> bool
    ensures { result ≡ is_key text.now }
{
    matches!(
        text,
        "mode"
            | "constellation"
            | "hierarchy"
            | "rate_hp"
            | "rate_lp"
            | "guard"
            | "cell_id"
            | "start"
            | "workers"
            | "max_symbols"
            | "plan"
    )
}

//! Whether a member takes part.

ghost use Rattle.std.specs.Prelude.{◌≡◌};
ghost use Rattle.srm_entries.specs.Entries.{is_gone};

/// Whether a member takes part. It never goes back.
#[derive(Clone, Copy, Debug, PartialEq, Eq)]
pub enum AgentState {
    /// It draws, asks and repairs.
    Active,
    /// It draws nothing new, but asks, repairs and sends what waits.
    Leaving,
    /// It sent its farewell. It hears and sends nothing.
    Gone,
}

impl AgentState {
    /// Returns whether the member has sent its farewell. One that is leaving isn't gone.
    pub fn is_gone(self) -> bool
        ensures { result ≡ is_gone self }
    {
        matches!(self, AgentState::Gone)
    }
}

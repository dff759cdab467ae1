//! What holds of all that a slate shows and that a tab is told.

ghost use Rattle.srm_slate.specs.Showing.{SlotsShowFront};
ghost use Rattle.srm_slate.specs.Tabs.{TellsPrefix};

/// States that what is shown of each page slot is all that its worker took, or a front of it if memory ran out for a message. Each [`Record`](crate::Record) shows a front
/// of what its workers took. Does nothing.
#[tactic(auto, using(crate::proofs::Showing::slots_show))]
pub fn slots_show_a_front()
    ensures { SlotsShowFront }
{}

/// States that what a tab was told in all its frames, behind the messages that it had, is a prefix of what the workers took: each message once, and in order. The frames of each
/// [`Tab`](crate::Tab) follow each other, and each [`Draft`](crate::Draft) is made of what the slate shows then, which only grows. Does nothing.
#[tactic(auto, using(crate::proofs::Frames::tells_prefix))]
pub fn frames_tell_a_prefix()
    ensures { TellsPrefix }
{}

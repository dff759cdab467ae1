//! What holds of every run of a member, and every replay of it.

ghost use Rattle.srm_replays.specs.Law.{AgreementLaw, ReplayLaw, UnseenLaw};

use srm_timers::Words;

/// States the law of replays, and does nothing. Let two runs of a member begin alike, with the same settings and random numbers, and let the second be handed exactly
/// the calls that acted in the first, each at its moment, with noise between. Then the calls that act in the second are these, with the same effects: what was drawn,
/// set, requested, repaired, sent and given, timers' waits included.
pub fn replays<W: Words>()
    ensures { ReplayLaw W }
{}

/// States that a member's calls decide what it does, and does nothing. Let two runs of a member begin alike, with the same settings and random numbers. If the same calls
/// act in both, each at its moment, they do the same, whatever else came to the member: idle ticks, noise, and calls that were refused, ignored or brought nothing.
pub fn calls_decide<W: Words>()
    ensures { AgreementLaw W }
{}

/// States that a call that doesn't act is unseen, and does nothing. In every run of a member such a call heard nothing, sent nothing and gave the page workers nothing. So neither
/// another member nor a page worker can tell whether it was made: an idle tick, noise, or a call that was refused, ignored or brought nothing.
pub fn idle_calls_are_unseen()
    ensures { UnseenLaw }
{}

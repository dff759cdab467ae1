//! What holds of every run of several members.

ghost use Rattle.srm_world.specs.Claims.{LawfulLaw, RestLaw, TakesLaw};

/// States the law of takes, and does nothing. In every honest run of all members, what a page worker takes of a source is a prefix of what that source drew on the
/// page, each drawop once and in order. It is all of it once the source's leaving is taken.
pub fn takes()
    ensures { TakesLaw }
{}

/// States the law of rest, and does nothing. In every honest run of all members, two that are at rest on a page know of the same drawops there, and have released
/// the same. Two members are at rest on a page if neither misses anything there, and each has heard a session message for the page that the other sent when it knew
/// there all that it knows now.
pub fn rests()
    ensures { RestLaw }
{}

/// States that all laws hold of every honest run of all members, whatever made it, and does nothing: [`takes`], [`rests`], and that each member requests and repairs
/// in time, gives what is released to it and keeps its rate.
pub fn honest_runs_are_lawful()
    ensures { LawfulLaw }
{}

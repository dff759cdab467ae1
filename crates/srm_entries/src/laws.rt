//! What holds of every run of a member, whatever it heard.

ghost use Rattle.srm_entries.specs.Promises.{GivesLaw};
ghost use Rattle.srm_entries.specs.Rates.{RateLaw};
ghost use Rattle.srm_entries.specs.Runs.{ResponseLaw};

/// States the law of response, and does nothing. In every run of a member each missing name has a request timer, and after a request for a held name that isn't held
/// off a repair timer runs. By the first tick at or after its longest wait a timer has ended, unless the member was gone.
pub fn responds()
    ensures { ResponseLaw }
{}

/// States the law of giving, and does nothing. In every run of a member, what a page slot gives is a page feed, and of each source a prefix of what is released. A
/// gone member sends nothing.
pub fn gives()
    ensures { GivesLaw }
{}

/// States the law of the rate, and does nothing. In every run of a member, what goes of each class is a prefix of what was handed in, and nothing goes while a
/// higher class waits. From one tick to another no more is charged than the bucket's depth, and its rate times the time between. At the end of a tick nothing waits,
/// or the next item costs more than the tokens left.
pub fn keeps_rate()
    ensures { RateLaw }
{}

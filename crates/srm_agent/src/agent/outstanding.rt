//! What is outstanding: which timer expires first, and what waits to be sent.

ghost use Rattle.std.specs.Prelude.{IsNone};
ghost use Rattle.srm_agent.specs.Asking.{MissesNothing, NextRepair, NextRequest, SaysOutstanding, WaitingIn};

use super::Agent;
use crate::outstanding::Outstanding;
use srm_bucket::Class;
use srm_timers::Words;

impl<W: Words + Drop> Agent<W> {
    /// Returns when the first request timer expires, in microseconds; `None` if none runs, and so nothing is missing. Takes no memory and changes nothing.
    pub fn next_request(&self) -> Option<u64>
        ensures first { NextRequest self.now result }
        ensures nothing { IsNone result → MissesNothing self.now }
    {
        self.timers.next_request()
    }

    /// Returns when the first repair timer expires, in microseconds; `None` if none runs. A repair whose timer has expired may still wait to be sent: see
    /// [`waiting`](Agent::waiting). Takes no memory and changes nothing.
    pub fn next_repair(&self) -> Option<u64>
        ensures { NextRepair self.now result }
    {
        self.timers.next_repair()
    }

    /// Returns how many datagrams of a class wait until the rate lets them go. Takes no memory and changes nothing.
    pub fn waiting(&self, class: Class) -> usize
        ensures { WaitingIn class self.now result }
    {
        self.bucket.waiting(class)
    }

    /// Returns what a member that waits for others needs to know at once: what it misses, when its timers expire, what waits to be sent, and whether it takes part.
    /// Takes no memory, changes nothing, and looks at 256 counts at most.
    pub fn outstanding(&self) -> Outstanding
        ensures { SaysOutstanding self.now result }
    {
        Outstanding {
            missing: self.missing(),
            next_request: self.next_request(),
            next_repair: self.next_repair(),
            waiting_shown: self.waiting(Class::Shown),
            waiting_new: self.waiting(Class::New),
            waiting_other: self.waiting(Class::Other),
            state: self.state(),
        }
    }
}
